//! From a bound program to checked stack code that stands for it.
//!
//! [`generate`] goes once over the lines of a program, without recursion. A loop's test stands behind its body, so each turn
//! of a loop takes one jump.
//!
//! Proved: the code is checked, stands for the program, and takes a bounded number of turns for each beginning.
//!
//! Only tested: that code is made with ample memory.
//!
//! Assumed: nothing but memory.
#![tactic(auto)]

mod lines;
mod parts;
mod program;
mod statements;

pub use program::generate;

#[cfg(test)]
mod tests;
