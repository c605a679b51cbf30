//! From the rows of a file to its syntax tree (Visual Basic Language Specification 11.0, 1.1, 6, 7, 9 and 10).
//!
//! Proved: the tree of the rows, or the row with which no file goes on, exactly.
//!
//! Only tested: rows of files, by `vb_tests`.
//!
//! Assumed: nothing but memory.
#![tactic(auto)]

mod excluded;
mod laws;
mod lines;
mod step;
mod tree;

pub use excluded::{tree_has_ends, tree_has_items, tree_is_placed};
pub use laws::one_tree;
pub use tree::{BuildErr, build};
