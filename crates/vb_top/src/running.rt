// Compiling and running a program.
ghost use Rattle.std.specs.Prelude.{◌≡◌, ◌≤◌, List, ℕ, Option, Some, IfSome, IfNone, IfOk, string_bytes};
ghost use Rattle.std.specs.Io.KnownBytes.{Keeps};
ghost use Rattle.vb_text.specs.Units.{utf8_of};
ghost use Rattle.vb_bound.specs.Tree.{Tree, IsOutlineOf};
ghost use Rattle.vb_code.specs.Code.{class_name as name_of_class};
ghost use Rattle.vb_top.specs.Reports.{RanProgram, report_with};
ghost use Rattle.vb_top.specs.Headline.{TellsRun};

use crate::outcome::{Answer, Report};
use std::alloc::{AllocError, Global};
use vb_bound::Program;
use vb_code::{Checked, Code};
use vb_codegen::generate;
use vb_io::Sink;
use vb_turns::{Finish, Run, run_alone};
use vb_value::{Limits, Stop};

// The limits of a run for which the words give none.
const LIMITS: Limits = Limits {
    turns: 10_000_000,
    heap: 4_194_304,
};

/// What a file has come to: the answer, the report where it was run, the full name of the class that was thrown, or no
/// text, and the line that tells a refusal, or no text.
#[derive(Drop)]
pub struct Outcome {
    pub said: Answer,
    pub report: Option<Report>,
    pub name: String,
    pub refusal: Vec<u8>,
}

/// Compiles and runs a program. There is no report where memory runs out before the run, and then nothing was written.
pub fn run_program<O: Sink>(alloc: Global, program: &Program, out: &mut O) -> Option<Report>
    ensures kept { IfSome result (λ r. (t : Tree) → IsOutlineOf program.now t → (input : List ℕ) → RanProgram t r input (O.written out.old) (O.written out.new) (O.faults out.old) (O.faults out.new)) }
    ensures none { IfNone result (Keeps (O.written out.old) (O.written out.new)) }
    ensures later { O.faults out.old ≤ O.faults out.new }
{
    let Ok(code) = generate(alloc, program) else {
        return None;
    };
    let Finish { run, stop } = run_alone(alloc, &code, LIMITS, out);
    match run {
        Some(run) => Some(report_of(code, run, stop)),
        None => None,
    }
}

// The report of a run.
fn report_of(code: Checked, run: Run, stop: Stop) -> Report
    ensures { result ≡ report_with code run stop }
{
    let Run {
        journal,
        tails,
        turns,
        begun,
        threads,
        units,
    } = run;
    Report {
        code,
        journal,
        tails,
        turns,
        begun,
        threads,
        units,
        stop,
    }
}

/// The outcome of a run, with the name of the class that was thrown. Without memory for the name the stop is that.
pub fn named(alloc: Global, report: Report) -> Outcome
    ensures { TellsRun report result.said result.report (string_bytes result.name) }
{
    match report.stop {
        Stop::Uncaught { thread: _, class } => match class_bytes(alloc, report.code.code(), class) {
            Ok(name) => stopped(alloc, report, name),
            Err(AllocError) => out_of_memory(alloc, report),
        },
        _ => stopped(alloc, report, String::new(alloc)),
    }
}

// The outcome of a run that is told as it stopped.
fn stopped(alloc: Global, report: Report, name: String) -> Outcome
    ensures said { result.said ≡ Answer.Stopped report.stop }
    ensures report { result.report ≡ Some report }
    ensures name { result.name ≡ name }
{
    Outcome {
        said: Answer::Stopped(report.stop),
        report: Some(report),
        name,
        refusal: Vec::new(alloc),
    }
}

// The outcome of a run that is told as want of memory.
fn out_of_memory(alloc: Global, report: Report) -> Outcome
    ensures said { result.said ≡ Answer.Stopped Stop.Memory }
    ensures report { result.report ≡ Some (record report { stop = Stop.Memory }) }
{
    let mut report = report;
    report.stop = Stop::Memory;
    Outcome {
        said: Answer::Stopped(Stop::Memory),
        report: Some(report),
        name: String::new(alloc),
        refusal: Vec::new(alloc),
    }
}

// The full name of a class as UTF-8.
#[tactic(auto, unfolding(vb_text::specs::Units::utf8_of))]
fn class_bytes(alloc: Global, code: &Code, class: usize) -> Result<String, AllocError>
    ensures { IfOk result (λ s. string_bytes s ≡ utf8_of (name_of_class code.now class)) }
{
    String::from_utf16_lossy(alloc, code.class_name(class))
}
