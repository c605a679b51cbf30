// Why a run stops, and the exit statuses.
ghost use Rattle.std.specs.Prelude.{◌≡◌, ◌<◌};
ghost use Rattle.vb_value.specs.Stop.{status_code};

/// How far a run may go: in turns, each one instruction, and in heap units.
#[derive(Clone, Copy, Debug, PartialEq, Eq)]
pub struct Limits {
    pub turns: u64,
    pub heap: u64,
}

/// Why a run has stopped.
#[derive(Clone, Copy, Debug, PartialEq, Eq)]
pub enum Stop {
    /// All threads have ended.
    Ended,
    /// The thread has thrown an object of the class of this number, and nothing catches it.
    Uncaught { thread: u32, class: usize },
    /// The next object would be one too many for the heap limit.
    HeapLimit,
    /// The turns have reached their limit.
    TurnLimit,
    /// The output has failed.
    WriteFault,
    /// There was no memory.
    Memory,
}

/// What the whole call has come to; its number is the exit status of the program.
#[derive(Clone, Copy, Debug, PartialEq, Eq)]
pub enum Status {
    Ended,
    Refused,
    Usage,
    Uncaught,
    AllWaiting,
    Heap,
    Turns,
    Depth,
    Read,
    Write,
    Memory,
    File,
}

impl Status {
    /// The exit status, from 0 to 11.
    pub fn code(self) -> u8
        ensures { result ≡ status_code self }
    {
        self as u8
    }
}
