//! Reads an expression, or the name of a type, at the front of a logical line of tokens (Visual Basic Language Specification
//! 11.0, 7 and 11).
//!
//! Proved: what stands at the front of the tokens, or refused, exactly.
//!
//! Only tested: rows of expressions and the widest lines, by `vb_tests`.
//!
//! Assumed: nothing but memory.
#![tactic(auto)]

mod ahead;
mod beginnings;
mod closings;
mod error;
mod fault;
mod machine;
mod operators;
mod parse;
mod pending;
mod types;
mod words;

pub use ahead::{
    after_closing, after_closing_brace, after_comma, after_dot, after_opening, after_opening_brace,
};
pub use error::ParseErr;
pub use fault::Fault;
pub use parse::{
    one_reading, parse_expr, parse_initializer, parse_primary, parse_simple_type, parse_type,
    primary_begins, read_expression, refusal,
};
pub use types::{after_opening_of, read_name, read_type};
