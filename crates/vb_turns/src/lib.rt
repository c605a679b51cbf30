//! The whole run of a program with one thread.
//!
//! Proved: what is kept of a run is that of the code, and its stop stands.
//!
//! Only tested: nothing.
//!
//! Assumed: nothing but memory and the output.
#![tactic(auto)]

mod alone;
mod entries;

pub use alone::{Finish, Run, run_alone};
