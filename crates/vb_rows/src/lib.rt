//! Reads the logical lines of a file into rows, each with the item that stands there (Visual Basic Language Specification 11.0, 1.1).
//!
//! Proved: the rows of the lines and the least line that is not of the grammar, exactly.
//!
//! Only tested: rows of lines, by `vb_tests`.
//!
//! Assumed: nothing but memory.
#![tactic(auto)]

mod depths;
mod files;
mod items;
mod joints;
mod laws;
mod lines;
mod open_blocks;
mod pieces;
mod places;
mod stack;

pub use files::{FileRows, read_rows};
pub use laws::{in_place_as_produced, one_list_of_rows};
