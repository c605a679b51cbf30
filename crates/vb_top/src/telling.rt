// Telling an answer by its status and its line.
ghost use Rattle.std.specs.Prelude.{◌≡◌, ◌++◌, codes};
ghost use Rattle.std.specs.Fmt.{decimal};
ghost use Rattle.vb_io.specs.Outside.{Writes};
ghost use Rattle.vb_top.specs.Answers.{status_of as status_of_answer, status_of_stop as status_of_its_stop, line_of, line_of_stop, IsRefusalLine};

use crate::outcome::Answer;
use itoa::Buffer;
use vb_io::{Failed, Sink, write_all, write_both};
use vb_value::{Status, Stop};

const USAGE: &[u8] =
    b"usage: vbrun run FILE.. [--limit N] [--heap N] [--seed N or --workers N], check FILE.., code FILE.., sample N\n";

const MISSING: &[u8] = b": not found\n";

const TOO_LONG: &[u8] = b": longer than 4194304 bytes\n";

const UNCAUGHT: &[u8] = b"uncaught on thread ";

const HEAP: &[u8] = b"heap limit reached\n";

const TURNS: &[u8] = b"turn limit reached\n";

const READ: &[u8] = b"read fault\n";

const WRITE: &[u8] = b"write fault\n";

const MEMORY: &[u8] = b"out of memory\n";

/// The exit status of an answer.
pub fn status_of(said: Answer) -> Status
    ensures { result ≡ status_of_answer said }
{
    match said {
        Answer::Usage => Status::Usage,
        Answer::Missing | Answer::TooLong => Status::File,
        Answer::LoadFault => Status::Read,
        Answer::Refused { .. } => Status::Refused,
        Answer::Memory => Status::Memory,
        Answer::Stopped(stop) => status_of_stop(stop),
    }
}

fn status_of_stop(stop: Stop) -> Status
    ensures { result ≡ status_of_its_stop stop }
{
    match stop {
        Stop::Ended => Status::Ended,
        Stop::Uncaught { .. } => Status::Uncaught,
        Stop::HeapLimit => Status::Heap,
        Stop::TurnLimit => Status::Turns,
        Stop::WriteFault => Status::Write,
        Stop::Memory => Status::Memory,
    }
}

/// Writes the line of an answer about a file; `name` is the full name of the class that was thrown, and `refusal` the line
/// of a refusal. It takes no memory.
pub fn tell<E: Sink>(
    err: &mut E,
    said: Answer,
    file: &str,
    name: &str,
    refusal: &[u8],
) -> Result<(), Failed>
    requires { IsRefusalLine said file.now refusal.now }
    ensures { Writes (E.written err.old) (E.written err.new) (E.faults err.old) (E.faults err.new) (line_of said file.now name.now) result }
{
    match said {
        Answer::Usage => write_all(err, USAGE),
        Answer::Missing => write_both(err, file.as_bytes(), MISSING),
        Answer::TooLong => write_both(err, file.as_bytes(), TOO_LONG),
        Answer::LoadFault => write_all(err, READ),
        Answer::Refused { .. } => write_all(err, refusal),
        Answer::Memory => write_all(err, MEMORY),
        Answer::Stopped(stop) => tell_stop(err, stop, name),
    }
}

fn tell_stop<E: Sink>(err: &mut E, stop: Stop, name: &str) -> Result<(), Failed>
    ensures { Writes (E.written err.old) (E.written err.new) (E.faults err.old) (E.faults err.new) (line_of_stop stop name.now) result }
{
    match stop {
        Stop::Ended => write_all(err, b""),
        Stop::Uncaught { thread, class: _ } => tell_uncaught(err, thread, name),
        Stop::HeapLimit => write_all(err, HEAP),
        Stop::TurnLimit => write_all(err, TURNS),
        Stop::WriteFault => write_all(err, WRITE),
        Stop::Memory => write_all(err, MEMORY),
    }
}

// `uncaught on thread T: NAME` and the line's end.
fn tell_uncaught<E: Sink>(err: &mut E, thread: u32, name: &str) -> Result<(), Failed>
    ensures { Writes (E.written err.old) (E.written err.new) (E.faults err.old) (E.faults err.new) (codes "uncaught on thread " ++ decimal thread ++ codes ": " ++ (name.now ++ codes "\n")) result }
{
    let mut buffer = Buffer::new();
    let number = buffer.format(thread);
    match write_three(err, UNCAUGHT, number.as_bytes(), b": ") {
        Ok(()) => write_both(err, name.as_bytes(), b"\n"),
        Err(failed) => Err(failed),
    }
}

// Puts all of a text that stands in three parts.
fn write_three<K: Sink>(
    sink: &mut K,
    front: &[u8],
    middle: &[u8],
    back: &[u8],
) -> Result<(), Failed>
    ensures { Writes (K.written sink.old) (K.written sink.new) (K.faults sink.old) (K.faults sink.new) (front.now ++ middle.now ++ back.now) result }
{
    match write_both(sink, front, middle) {
        Ok(()) => write_all(sink, back),
        Err(failed) => Err(failed),
    }
}
