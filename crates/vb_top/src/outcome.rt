// What the call hands back.
ghost use Rattle.std.specs.Prelude.{◌≡◌};

use vb_code::Checked;
use vb_value::{Journal, Status, Stop, Tails};

/// What the call has come to, before it is told.
#[derive(Clone, Copy, Debug, PartialEq, Eq)]
pub enum Answer {
    /// The words are no command.
    Usage,
    /// The file isn't there.
    Missing,
    /// The file is longer than 4,194,304 bytes.
    TooLong,
    /// The folder has failed.
    LoadFault,
    /// The file breaks a rule: the least line that breaks one, and the number of the least rule there.
    Refused { line: u32, rule: u16 },
    /// There was no memory before the run.
    Memory,
    /// The program was run, to this stop.
    Stopped(Stop),
}

/// What is kept of a run.
#[derive(Drop)]
pub struct Report {
    /// The code that was run.
    pub code: Checked,
    /// Its recorded actions.
    pub journal: Journal,
    /// For each thread, how many statements it has begun since its last committed entry.
    pub tails: Tails,
    /// How many instructions were done.
    pub turns: u64,
    /// How many statements, calls, tests of loops and given locals have begun.
    pub begun: u64,
    /// How many threads were started beside `Main`'s.
    pub threads: u32,
    /// The heap units of all objects made.
    pub units: u64,
    /// Why the run has stopped.
    pub stop: Stop,
}

/// What the whole call hands back: the exit status, a report exactly where code was run, and the three streams.
#[derive(Drop)]
pub struct Finished<I: Drop, O: Drop, E: Drop> {
    pub status: Status,
    pub report: Option<Report>,
    pub input: I,
    pub out: O,
    pub err: E,
}
