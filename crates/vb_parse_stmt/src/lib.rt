//! Reads what stands on a logical line of tokens.
//!
//! Proved: which item a line is, or refused, exactly.
//!
//! Only tested: rows of lines, by `vb_tests`.
//!
//! Assumed: nothing but memory.
#![tactic(auto)]

mod block_parts;
mod branches;
mod cases;
mod declaration;
mod file;
mod front;
mod jumps;
mod loops;
mod namespaces;
mod simple;
mod stmt;
mod tries;

pub use stmt::{one_item, parse_stmt};
pub use vb_parse_expr::ParseErr;
