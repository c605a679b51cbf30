//! One thread of a compiled program: silent runs from ask to ask.
//!
//! Proved: a silent run is that of the code, and comes to its ask.
//!
//! Only tested: nothing.
//!
//! Assumed: nothing but memory.
#![tactic(auto)]

mod answer;
mod due;
mod instructions;
mod run;
mod turn;

pub use answer::give;
pub use run::{Pause, Paused, run_local};
