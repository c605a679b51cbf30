// The top call.
ghost use Rattle.std.specs.Prelude.{◌≡◌, ◌⊎◌, ◌≤◌, length};
ghost use Rattle.vb_top.specs.Answers.{IsRefusalLine};
ghost use Rattle.vb_top.specs.Headline.{BuiltOn, ToldOn, WorksOn, HeadlineOn, longest_file};

use crate::compiling::{CompileErr, compile};
use crate::outcome::{Answer, Finished, Report};
use crate::running::{Outcome, named, run_program};
use crate::telling::{status_of, tell};
use crate::words::file_word;
use std::alloc::Global;
use std::sync::Wait;
use std::thread::Threads;
use vb_diag::{Refusal, refusal_line};
use vb_io::{Failed, Folder, Gate, LoadErr, Sink, Source};
use vb_value::Status;

const LONGEST_FILE: u64 = 4_194_304;

/// All that the program does. It waits for nobody yet: it does what [`vb_command`] does.
pub fn vb_top<
    R: Threads + Wait + Sync,
    F: Folder,
    I: Source + Send,
    O: Sink + Send,
    E: Sink,
    G: Gate,
>(
    rt: &R,
    alloc: Global,
    words: &[String],
    folder: &mut F,
    input: I,
    out: O,
    err: E,
    gate: &G,
) -> Finished<I, O, E>
    ensures headline { HeadlineOn F.holds F.faults I.left O.written O.faults E.written E.faults words.now folder.old folder.new input out err result }
    ensures input_stays { result.input ≡ input }
{
    let _ = rt;
    let _ = gate;
    vb_command(alloc, words, folder, input, out, err)
}

/// All that the program does without workers.
pub fn vb_command<F: Folder, I: Source, O: Sink, E: Sink>(
    alloc: Global,
    words: &[String],
    folder: &mut F,
    input: I,
    out: O,
    err: E,
) -> Finished<I, O, E>
    ensures headline { HeadlineOn F.holds F.faults I.left O.written O.faults E.written E.faults words.now folder.old folder.new input out err result }
    ensures input_stays { result.input ≡ input }
{
    let mut out = out;
    match file_word(words) {
        None => {
            let usage = Outcome {
                said: Answer::Usage,
                report: None,
                name: String::new(alloc),
                refusal: Vec::new(alloc),
            };
            finish("", usage, input, out, err)
        }
        Some(file) => {
            let outcome = work(alloc, file, folder, &mut out);
            finish(file, outcome, input, out, err)
        }
    }
}

// Tells an outcome, and hands all back.
fn finish<I: Source, O: Sink, E: Sink>(
    file: &str,
    outcome: Outcome,
    input: I,
    out: O,
    err: E,
) -> Finished<I, O, E>
    requires { IsRefusalLine outcome.said file.now outcome.refusal.items }
    ensures tells { ToldOn E.written E.faults file.now outcome result.status err result.err }
    ensures later { E.faults err ≤ E.faults result.err }
    ensures report { result.report ≡ outcome.report }
    ensures input { result.input ≡ input }
    ensures out { result.out ≡ out }
{
    let mut err = err;
    let Outcome {
        said,
        report,
        name,
        refusal,
    } = outcome;
    match tell(&mut err, said, file, name.as_str(), &refusal) {
        Ok(()) => Finished {
            status: status_of(said),
            report,
            input,
            out,
            err,
        },
        Err(Failed) => Finished {
            status: Status::Write,
            report,
            input,
            out,
            err,
        },
    }
}

// Loads, compiles and runs a file.
fn work<F: Folder, O: Sink>(alloc: Global, file: &str, folder: &mut F, out: &mut O) -> Outcome
    ensures works { WorksOn F.holds F.faults O.written O.faults file.now folder.old folder.new out.old out.new result }
    ensures line { IsRefusalLine result.said file.now result.refusal.items }
    ensures kept { F.holds folder.new ≡ F.holds folder.old }
    ensures folder_later { F.faults folder.old ≤ F.faults folder.new }
    ensures out_later { O.faults out.old ≤ O.faults out.new }
{
    let mut bytes = Vec::new(alloc);
    match folder.load(file, LONGEST_FILE, &mut bytes) {
        Ok(()) => build(alloc, file, &bytes, out),
        Err(LoadErr::Missing) => unbuilt(alloc, Answer::Missing),
        Err(LoadErr::TooLong) => unbuilt(alloc, Answer::TooLong),
        Err(LoadErr::Failed) => unbuilt(alloc, Answer::LoadFault),
        Err(LoadErr::Memory) => unbuilt(alloc, Answer::Memory),
    }
}

// An outcome without a run and without a refusal.
fn unbuilt(alloc: Global, said: Answer) -> Outcome
    ensures said { result.said ≡ said }
    ensures report { result.report ≡ None }
{
    Outcome {
        said,
        report: None,
        name: String::new(alloc),
        refusal: Vec::new(alloc),
    }
}

// The outcome of a file that breaks a rule. Without memory for its line it is want of memory.
fn refused(alloc: Global, file: &str, refusal: Refusal) -> Outcome
    ensures said { (result.said ≡ Answer.Refused refusal.line refusal.rule) ⊎ (result.said ≡ Answer.Memory) }
    ensures line { IsRefusalLine result.said file.now result.refusal.items }
    ensures report { result.report ≡ None }
{
    let mut line = Vec::new(alloc);
    if refusal_line(file, &refusal, &mut line).is_err() {
        return unbuilt(alloc, Answer::Memory);
    }
    Outcome {
        said: Answer::Refused {
            line: refusal.line,
            rule: refusal.rule.number(),
        },
        report: None,
        name: String::new(alloc),
        refusal: line,
    }
}

// Compiles and runs the bytes of a file.
fn build<O: Sink>(alloc: Global, file: &str, bytes: &[u8], out: &mut O) -> Outcome
    requires { length bytes.now ≤ longest_file }
    ensures built { BuiltOn O.written O.faults bytes.now out.old out.new result }
    ensures line { IsRefusalLine result.said file.now result.refusal.items }
    ensures later { O.faults out.old ≤ O.faults out.new }
{
    match compile(alloc, bytes) {
        Ok(program) => match run_program(alloc, &program, out) {
            Some(report) => named(alloc, report),
            None => unbuilt(alloc, Answer::Memory),
        },
        Err(CompileErr::Refused(refusal)) => refused(alloc, file, refusal),
        Err(CompileErr::Memory) => unbuilt(alloc, Answer::Memory),
    }
}
