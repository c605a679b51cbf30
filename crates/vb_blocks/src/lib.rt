//! Blocks of a Visual Basic file that are open, and what a row does to the statements in them (Visual Basic Language Specification 11.0, 10).
//!
//! Proved: each call does the step of specs/Steps.antt, which `vb_tree` proves to be that of the grammar.
//!
//! Only tested: nothing.
//!
//! Assumed: nothing but memory.
#![tactic(auto)]

mod accessors;
mod bodies;
mod clauses;
mod endings;
mod fault;
mod frame;
mod procedure_ends;
mod scope;
mod statements;
mod turns;
mod words;

pub use bodies::{body_turn, is_line};
pub use clauses::select_first;
pub use fault::Fault;
pub use frame::{
    ClassParts, EventParts, FileParts, Frame, InterfaceParts, PropertyParts, Turn, TypeHeader,
    Whole,
};
pub use scope::{
    AccessorHeader, IfClause, IfParts, LineClause, Scope, SelectClause, SelectParts, TryClause,
    TryParts,
};
pub use statements::{begun, simple};
pub use turns::{closes_member, closes_type, given, opens};
pub use words::is_word;
