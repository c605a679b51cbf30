//! The program: the top call over the real folder, streams and arguments.
#![tactic(auto)]

use std::alloc::AllocError;
use std::env;
use std::io::ErrorKind;
use std::process::ExitCode;
use vb_io::{DirFolder, OpenGate, ReadSource, WriteSink, write_all};
use vb_top::vb_top;

// The exit statuses of a write fault and of want of memory.
const WRITE: u8 = 9;

const MEMORY: u8 = 10;

/// Does what the words ask, and ends with the status.
fn main(rt: HostRuntime) -> ExitCode {
    let mut err = WriteSink {
        inner: rt.stderr(),
        faults: 0,
    };
    let Ok(words) = words_of(&rt) else {
        return match write_all(&mut err, b"out of memory\n") {
            Ok(()) => ExitCode::from(MEMORY),
            Err(_) => ExitCode::from(WRITE),
        };
    };
    let mut folder = DirFolder { rt: &rt, faults: 0 };
    let input = ReadSource {
        inner: rt.stdin(),
        faults: 0,
    };
    let out = WriteSink {
        inner: rt.stdout(),
        faults: 0,
    };
    let finished = vb_top(
        &rt,
        rt.alloc(),
        &words,
        &mut folder,
        input,
        out,
        err,
        &OpenGate,
    );
    ExitCode::from(finished.status.code())
}

// The words of the command line. Arguments that aren't text are no words, and so usage.
fn words_of(rt: &HostRuntime) -> Result<Vec<String>, AllocError> {
    let mut words = Vec::new(rt.alloc());
    match env::args(rt) {
        Ok(arguments) => {
            for word in arguments.skip(1) {
                words.push(word)?;
            }
        }
        Err(error) if error.kind() == ErrorKind::OutOfMemory => return Err(AllocError),
        Err(_) => {}
    }
    Ok(words)
}
