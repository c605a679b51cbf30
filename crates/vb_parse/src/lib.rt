//! From the logical lines of a file to its syntax tree, or the least rule on lines and blocks that they break (Visual Basic Language
//! Specification 11.0, 6, 7, 9 and 10).
//!
//! Proved: the tree of the lines, or the least rule on lines and blocks that they break, exactly; lines with a tree break the rule on a
//! line's form only by a colon at the file's front, and those on blocks' ends and on where rows stand never.
//!
//! Only tested: rows of files, by `vb_tests`.
//!
//! Assumed: nothing but memory.
#![tactic(auto)]

mod files;
mod front;
mod laws;
mod modifiers;
mod options;
mod row_rules;

pub use files::parse;
pub use laws::tree_excludes;
pub use vb_parse_expr::ParseErr;
