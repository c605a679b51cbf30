//! Values, what a thread asks and is answered, and what is kept of a run.
//!
//! Proved: what the constructors and the journal keep.
//!
//! Only tested: nothing.
//!
//! Assumed: nothing but memory.
#![tactic(auto)]

mod action;
mod journal;
mod stop;
mod value;

pub use action::{Action, Answer};
pub use journal::{Entry, Journal, Tails};
pub use stop::{Limits, Status, Stop};
pub use value::{Ref, Shape, Value};
