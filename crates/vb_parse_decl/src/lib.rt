//! Reads a logical line of the declarations of types and members, and the parts that it has in common with other lines
//! (Visual Basic Language Specification 11.0, 4.6, 4.9, 7 and 9).
//!
//! Proved: what a line declares, or refused, exactly.
//!
//! Only tested: rows of lines, by `vb_tests`.
//!
//! Assumed: nothing but memory.
#![tactic(auto)]

mod ahead;
mod declarator;
mod headers;
mod implemented;
mod line;
mod lists;
mod members;
mod modifiers;
mod parameters;
mod parts;
mod type_parameters;

pub use declarator::{bound, declarators, first_name, is_over, over_expression, rest};
pub use line::{one_declaration, parse_declaration};
pub use parts::{is_equal_at, whole_expression};
pub use vb_parse_expr::ParseErr;
