//! Programs whose names are bound: a local is named by its number.
//!
//! A program is kept as its lines in order. The lines of a loop stand between the line that opens it and the line that
//! ends it, so that who goes over a program needs no recursion.
//!
//! Proved: a program's lines are those of a tree, and each use of a local is bound.
//!
//! Only tested: nothing.
//!
//! Assumed: nothing.
#![tactic(auto)]

mod program;
mod tree;

pub use program::Program;
pub use tree::{Condition, Expr, Line, LocalId, Operand, Operator, Relation, Statement};
