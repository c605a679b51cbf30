//! Reads the syntax tree of a Visual Basic file into a program whose names are bound, and tells the first line that has a form
//! which no program has.
//!
//! Proved: the program of a tree, or refused, exactly; the least line with a form that is not built.
//!
//! Only tested: rows of trees, by `vb_tests`.
//!
//! Assumed: nothing but memory.
#![tactic(auto)]

mod blocks;
mod expressions;
mod forms;
mod names;
mod outer;
mod program;
mod statements;
mod unbuilt;

pub use names::KnownNames;
pub use program::{ReadErr, one_program, read_program};
pub use unbuilt::{first_unbuilt, programs_are_built};
