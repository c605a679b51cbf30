// One ask of the thread, and its entry.
ghost use Rattle.std.specs.Prelude.{◌≡◌, ◌+◌, ◌<◌, ◌≤◌, ◌^◌};
ghost use Rattle.vb_code.specs.Code.{Code};
ghost use Rattle.vb_code.specs.Local.{ask_of};
ghost use Rattle.vb_frames.specs.Frames.{AsksNow, Awaits, asked};
ghost use Rattle.vb_turns.specs.Stage.{IsFine, Performs, PutsAll, PutsText, Settles, units_asked};

use crate::alone::Running;
use std::alloc::Global;
use vb_code::Checked;
use vb_frames::give;
use vb_io::{Sink, write_all};
use vb_text::Text;
use vb_value::{Action, Entry, Limits, Stop};

/// Does what the thread asks and adds its entry, or answers the stop that comes before it: an object above the heap limit is
/// `HeapLimit`, also with no turn left.
pub fn perform<O: Sink>(
    alloc: Global,
    code: &Checked,
    limits: Limits,
    action: Action,
    committed: bool,
    running: &mut Running,
    out: &mut O,
) -> Option<Stop>
    requires asks { AsksNow code.now running.old.local committed }
    requires action { ask_of code.now action ≡ asked code.now running.old.local }
    requires fine { IsFine code.now limits running.old }
    requires few { limits.turns ≤ 50000000 }
    requires heap { limits.heap ≤ 16777216 }

    ensures performs { Performs code.now limits running.old running.new (O.written out.old) (O.written out.new) (O.faults out.old) (O.faults out.new) result }
    ensures later { O.faults out.old ≤ O.faults out.new }
{
    let units = units_of(code, &action);
    if running.units + units > limits.heap {
        return Some(Stop::HeapLimit);
    }
    if running.turns >= limits.turns {
        return Some(Stop::TurnLimit);
    }
    let entry = Entry {
        thread: 0,
        worker: 0,
        committed,
    };
    let Ok(()) = running.journal.push(entry) else {
        return Some(Stop::Memory);
    };
    match put(alloc, &action, out) {
        Some(stop) => {
            let _entry = running.journal.pop();
            Some(stop)
        }
        None => {
            settle(committed, units, running);
            None
        }
    }
}

fn units_of(code: &Checked, action: &Action) -> u64
    ensures asked { result ≡ units_asked (ask_of code.now action.now) }
    ensures few { result < 2 ^ 32 }
{
    match action {
        Action::New { class } => u64::from(code.code().class_units(*class)),
        Action::Write { .. } | Action::End => 0,
    }
}

fn put<O: Sink>(alloc: Global, action: &Action, out: &mut O) -> Option<Stop>
    ensures puts { PutsAll action.now (O.written out.old) (O.written out.new) (O.faults out.old) (O.faults out.new) result }
    ensures later { O.faults out.old ≤ O.faults out.new }
{
    match action {
        Action::Write { text } => put_text(alloc, text, out),
        Action::New { .. } | Action::End => None,
    }
}

fn put_text<O: Sink>(alloc: Global, text: &Text, out: &mut O) -> Option<Stop>
    ensures puts { PutsText text.now (O.written out.old) (O.written out.new) (O.faults out.old) (O.faults out.new) result }
    ensures later { O.faults out.old ≤ O.faults out.new }
{
    let mut bytes = Vec::new(alloc);
    if text.to_utf8(&mut bytes).is_err() {
        return Some(Stop::Memory);
    }
    match write_all(out, &bytes) {
        Ok(()) => None,
        Err(_) => Some(Stop::WriteFault),
    }
}

// Goes on after the answer, and counts the entry's turn, its heap units and its statements.
fn settle(committed: bool, units: u64, running: &mut Running)
    requires awaits { Awaits running.old.local }
    requires room { running.old.settled + running.old.local.begun < 2 ^ 63 }
    requires turns { running.old.turns < 2 ^ 63 }
    requires units { running.old.units + units < 2 ^ 63 }
    ensures { (c : Code) → Settles c committed units running.old running.new }
{
    give(&mut running.local);
    running.turns += 1;
    running.units += units;
    if committed {
        running.settled += running.local.begun;
        running.local.begun = 0;
    }
}
