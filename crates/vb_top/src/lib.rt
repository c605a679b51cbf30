//! The whole of `vbrun`: the words, a file, its compilation, its run, and what is told of it.
//!
//! Proved: the headline, for every folder, input and output.
//!
//! Only tested: that the calls succeed with ample memory, by rows of whole runs.
//!
//! Assumed: that what the folder loads is what it holds.
#![tactic(auto)]

mod call;
mod compiling;
mod laws;
mod outcome;
mod running;
mod telling;
mod words;

pub use call::{vb_command, vb_top};
pub use laws::one_refusal;
pub use outcome::{Finished, Report};

#[cfg(test)]
mod tests;
