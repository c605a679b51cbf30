// A thread's silent run to its next ask.
ghost use Rattle.std.specs.Prelude.{◌≡◌, ℕ, ◌+◌, ◌*◌, ◌^◌, ◌<◌, ◌≤◌, map, IfOk};
ghost use Rattle.vb_value.specs.Datum.{units_of};
ghost use Rattle.vb_code.specs.Code.{Code, body_of};
ghost use Rattle.vb_code.specs.Local.{ask_of, thread_of};
ghost use Rattle.vb_code.specs.Shapes.{IsState};
ghost use Rattle.vb_frames.specs.Frames.{Awaits, RunsOn, PausesAt, ShowsAsk, asked};

use crate::due::{Due, due_of};
use crate::turn::{Did, turn};
use std::alloc::{AllocError, Global};
use vb_code::{Checked, Code, Local, Position, Step};
use vb_text::Text;
use vb_value::Action;

/// Why a silent run has paused.
#[derive(Drop)]
pub enum Pause {
    /// The thread asks this. Its entry counts as a step of the source program where it is committed.
    Ask(Action, bool),
    /// The turns are used up, and the thread's next step is silent.
    Spent,
    /// The thread has thrown an object of the class of this number, and nothing catches it.
    Uncaught(usize),
    /// There was no memory for the next turn.
    Memory,
}

/// How many turns a silent run has done, each one instruction, and why it has paused.
#[derive(Drop)]
pub struct Paused {
    pub spent: u64,
    pub why: Pause,
}

/// Runs a thread silently until it asks, has thrown to its bottom, has used up the budget of turns, or finds no memory.
///
/// The asking instruction is none of the turns spent, so it needs no turn: with a budget of 0 a thread that is at an ask
/// answers that ask. A thread whose last ask has no answer yet asks the same again, with no turn spent.
pub fn run_local(alloc: Global, code: &Checked, local: &mut Local, budget: u64) -> Paused
    requires state { IsState code.now (thread_of code.now local.old) }
    requires going { local.old.position ≡ Position.Ended → ⊥ }
    requires room { local.old.begun + 2 ^ 32 * budget < 2 ^ 64 }

    ensures state { IsState code.now (thread_of code.now local.new) }
    ensures runs { RunsOn code.now local.old local.new result.spent }
    ensures within { result.spent ≤ budget }
    ensures few { local.new.begun ≤ local.old.begun + 2 ^ 32 * result.spent }
    ensures pauses { PausesAt code.now local.new result.spent budget result.why }
{
    let program = code.code();
    let steps = program.steps();
    for spent in 0..budget {
        match turn(alloc, program, steps, local) {
            Did::Went => {}
            Did::Asked(committed) => {
                return Paused {
                    spent,
                    why: asking(alloc, local, committed),
                };
            }
            Did::Rested(class) => {
                return Paused {
                    spent,
                    why: Pause::Uncaught(class),
                };
            }
            Did::NoMemory => {
                return Paused {
                    spent,
                    why: Pause::Memory,
                };
            }
        }
    }
    Paused {
        spent: budget,
        why: last_pause(alloc, program, steps, local),
    }
}

// Why a thread pauses that has no turn left.
fn last_pause(alloc: Global, code: &Code, steps: &[Step], local: &mut Local) -> Pause
    requires body { body_of code.now ≡ map (λ s. s.instr) steps.now }
    requires state { IsState code.now (thread_of code.now local.old) }
    requires going { local.old.position ≡ Position.Ended → ⊥ }
    ensures thread { thread_of code.now local.new ≡ thread_of code.now local.old }
    ensures begun { local.new.begun ≡ local.old.begun }
    ensures pauses { (budget : ℕ) → PausesAt code.now local.new budget budget result }
{
    match due_of(code, steps, local) {
        Due::Step => Pause::Spent,
        Due::Ask(committed) => asking(alloc, local, committed),
        Due::Rest(class) => Pause::Uncaught(class),
    }
}

// What a thread asks that has no answer yet.
fn asking(alloc: Global, local: &Local, committed: bool) -> Pause
    requires { Awaits local.now }
    ensures { ShowsAsk local.now committed result }
{
    match action_of(alloc, local) {
        Ok(action) => Pause::Ask(action, committed),
        Err(_) => Pause::Memory,
    }
}

// The action that stands where a thread is.
fn action_of(alloc: Global, local: &Local) -> Result<Action, AllocError>
    requires { Awaits local.now }
    ensures { IfOk result (λ action. (c : Code) → ask_of c action ≡ asked c local.now) }
{
    match local.position {
        Position::Writing(_) => {
            let text = text_of(alloc, local.operands.text_at(0))?;
            Ok(Action::Write { text })
        }
        Position::Throwing(_, class) => Ok(Action::New { class }),
        Position::Returned => Ok(Action::End),
        _ => unreachable!(),
    }
}

// A copy of a text. Nothing gives the empty one.
fn text_of(alloc: Global, text: &Option<Text>) -> Result<Text, AllocError>
    ensures { IfOk result (λ t. t ≡ units_of text.now) }
{
    match text {
        Some(text) => text.copy(alloc),
        None => match Text::from_ascii(alloc, b"") {
            Ok(text) => Ok(text),
            Err(_) => Err(AllocError),
        },
    }
}
