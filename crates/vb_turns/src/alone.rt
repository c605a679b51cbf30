// The run of a program with one thread.
ghost use Rattle.std.specs.Prelude.{◌≡◌, ◌+◌, ◌<◌, ◌≤◌, ◌^◌, [], ◌∷◌, ℕ, List, cond, IfSome, IfNone};
ghost use Rattle.std.specs.Io.KnownBytes.{Keeps};
ghost use Rattle.vb_turns.specs.Ran.{Ran};
ghost use Rattle.vb_code.specs.Code.{Code};
ghost use Rattle.vb_code.specs.Local.{ask_of};
ghost use Rattle.vb_turns.specs.Stage.{Ends, IsFine, Leads, PausesNow, Rounds, ended_by};

use crate::entries::perform;
use std::alloc::Global;
use vb_code::{Checked, Local, Position};
use vb_frames::{Pause, run_local};
use vb_io::Sink;
use vb_value::{Action, Journal, Limits, Stop, Tails};

/// What is kept of a run: its journal, what each thread has begun since its last committed entry, the turns done, the
/// statements begun in all, the threads started beside the first, and the heap units of all objects made.
#[derive(Drop)]
pub struct Run {
    pub journal: Journal,
    pub tails: Tails,
    pub turns: u64,
    pub begun: u64,
    pub threads: u32,
    pub units: u64,
}

/// How a run came to its stop. Without a run there was no memory for its first state.
#[derive(Drop)]
pub struct Finish {
    pub run: Option<Run>,
    pub stop: Stop,
}

/// A run so far. `settled` are the statements begun up to the last committed entry.
#[derive(Drop)]
pub struct Running {
    pub local: Local,
    pub journal: Journal,
    pub turns: u64,
    pub settled: u64,
    pub units: u64,
}

/// Runs a program with one thread to its stop. Each instruction is one turn.
///
/// `TurnLimit` comes only where no other stop stands: with no turn left, a thread that has thrown is `Uncaught`, and an object
/// above the heap limit is `HeapLimit`. The memory of a write is taken before its first byte: `Memory` comes with nothing of it
/// put, and `WriteFault` with a proper front of it.
pub fn run_alone<O: Sink>(alloc: Global, code: &Checked, limits: Limits, out: &mut O) -> Finish
    requires turns { limits.turns ≤ 50000000 }
    requires heap { limits.heap ≤ 16777216 }

    ensures none { IfNone result.run ((result.stop ≡ Stop.Memory) × Keeps (O.written out.old) (O.written out.new)) }
    ensures ran { IfSome result.run (λ run. (input : List ℕ) → Ran code.now limits run result.stop input (O.written out.old) (O.written out.new) (O.faults out.old) (O.faults out.new)) }
    ensures later { O.faults out.old ≤ O.faults out.new }
{
    let Ok(local) = Local::first(alloc, code) else {
        return Finish {
            run: None,
            stop: Stop::Memory,
        };
    };
    let mut running = Running {
        local,
        journal: Journal::new(alloc),
        turns: 0,
        settled: 0,
        units: 0,
    };
    let stop = run_on(alloc, code, limits, &mut running, out);
    Finish {
        run: Some(run_of(running)),
        stop,
    }
}

fn run_on<O: Sink>(
    alloc: Global,
    code: &Checked,
    limits: Limits,
    running: &mut Running,
    out: &mut O,
) -> Stop
    requires fine { IsFine code.now limits running.old }
    requires going { running.old.local.position ≡ Position.Ended → ⊥ }
    requires few { limits.turns ≤ 50000000 }
    requires heap { limits.heap ≤ 16777216 }

    ensures ends { Ends code.now limits running.old running.new result (O.written out.old) (O.written out.new) (O.faults out.old) (O.faults out.new) }
    ensures later { O.faults out.old ≤ O.faults out.new }
{
    loop {
        if let Some(stop) = round(alloc, code, limits, running, out) {
            return stop;
        }
    }
}

fn round<O: Sink>(
    alloc: Global,
    code: &Checked,
    limits: Limits,
    running: &mut Running,
    out: &mut O,
) -> Option<Stop>
    requires fine { IsFine code.now limits running.old }
    requires going { running.old.local.position ≡ Position.Ended → ⊥ }
    requires few { limits.turns ≤ 50000000 }
    requires heap { limits.heap ≤ 16777216 }

    ensures rounds { Rounds code.now limits running.old running.new (O.written out.old) (O.written out.new) (O.faults out.old) (O.faults out.new) result }
    ensures later { O.faults out.old ≤ O.faults out.new }
{
    match advance(alloc, code, limits, running) {
        Pause::Ask(action, committed) => {
            let last = is_end(&action);
            match perform(alloc, code, limits, action, committed, running, out) {
                Some(stop) => Some(stop),
                None if last => Some(Stop::Ended),
                None => None,
            }
        }
        Pause::Spent => Some(Stop::TurnLimit),
        Pause::Uncaught(class) => Some(Stop::Uncaught { thread: 0, class }),
        Pause::Memory => Some(Stop::Memory),
    }
}

fn is_end(action: &Action) -> bool
    ensures { (c : Code) → ended_by (ask_of c action.now) ≡ cond result (0 ∷ []) [] }
{
    matches!(action, Action::End)
}

fn run_of(running: Running) -> Run
    requires { running.settled + running.local.begun < 2 ^ 64 }
    ensures { (result.journal ≡ running.journal) × (result.tails ≡ running.local.begun ∷ []) × (result.turns ≡ running.turns) × (result.begun ≡ running.settled + running.local.begun) × (result.threads ≡ 0) × (result.units ≡ running.units) }
{
    Run {
        journal: running.journal,
        tails: Tails::of_main(running.local.begun),
        turns: running.turns,
        begun: running.settled + running.local.begun,
        threads: 0,
        units: running.units,
    }
}

fn advance(alloc: Global, code: &Checked, limits: Limits, running: &mut Running) -> Pause
    requires fine { IsFine code.now limits running.old }
    requires going { running.old.local.position ≡ Position.Ended → ⊥ }
    requires few { limits.turns ≤ 50000000 }

    ensures fine { IsFine code.now limits running.new }
    ensures leads { Leads code.now limits running.old running.new [] [] }
    ensures further { running.old.turns ≤ running.new.turns }
    ensures pauses { PausesNow code.now limits running.new result }
{
    let paused = run_local(
        alloc,
        code,
        &mut running.local,
        limits.turns - running.turns,
    );
    running.turns += paused.spent;
    paused.why
}
