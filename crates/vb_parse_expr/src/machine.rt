// Reads an expression from left to right. What has been begun waits in a list, so that no call is within another.
ghost use Rattle.std.specs.Prelude.{◌≡◌, []};
ghost use Rattle.vb_parse_expr.specs.declared.machine.State.TheVariants as at;
ghost use Rattle.vb_parse_expr.specs.TypeReading.{Gives, most_turns};
ghost use Rattle.vb_parse_expr.specs.MachineReading as spec;

use crate::beginnings::want;
use crate::closings::braces;
use crate::fault::Fault;
use crate::operators::primary;
use crate::pending::{Goal, Pending};
use std::alloc::Global;
use vb_syntax::{Expr, Items, Token, VariableInitializer};

/// Where the reading is.
#[derive(Drop)]
pub enum State {
    /// An operand is to come.
    Want,
    /// A primary has been read so far.
    Primary(Expr),
    /// Elements in braces have been read.
    Braces(Items<VariableInitializer>),
    /// All has been read.
    Done(VariableInitializer),
}

/// Runs to the end.
#[tactic(auto, unfolding(crate::specs::MachineReading::run))]
pub fn run(
    alloc: Global,
    goal: Goal,
    tokens: &[Token],
) -> Result<(VariableInitializer, &[Token]), Fault>
    ensures { Gives (λ x. (x.0, x.1.now)) result (spec.run goal most_turns [] at.Want tokens.now) }
{
    let mut waiting = Items::new(alloc);
    let mut state = State::Want;
    let mut rest = tokens;
    for _turn in 0..u128::MAX {
        let (next, after) = step(alloc, goal, state, rest, &mut waiting)?;
        match next {
            State::Done(found) => return Ok((found, after)),
            next => {
                state = next;
                rest = after;
            }
        }
    }
    Err(Fault::Grammar)
}

#[tactic(auto, unfolding(crate::specs::MachineReading::step))]
fn step<'a>(
    alloc: Global,
    goal: Goal,
    state: State,
    tokens: &'a [Token],
    waiting: &mut Items<Pending>,
) -> Result<(State, &'a [Token]), Fault>
    ensures { Gives (λ x. (waiting.new, x.0, x.1.now)) result (spec.step goal waiting.old state tokens.now) }
{
    match state {
        State::Want => want(alloc, goal, tokens, waiting),
        State::Primary(found) => primary(alloc, goal, found, tokens, waiting),
        State::Braces(found) => braces(found, tokens, waiting),
        State::Done(found) => Ok((State::Done(found), tokens)),
    }
}
