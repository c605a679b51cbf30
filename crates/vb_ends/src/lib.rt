//! Which blocks of a file are open, where a block has no end or an end has no block, and where a row stands too deep in them (Visual
//! Basic Language Specification 11.0, 7, 9 and 10).
//!
//! Proved: the least line where a block has no end or an end no block, and the least that is too deep.
//!
//! Only tested: rows of files, by `vb_tests`.
//!
//! Assumed: nothing but memory.
#![tactic(auto)]

mod blocks;
mod depth;
mod laws;
mod reading;
mod role;
mod roles;
mod stack;

pub use blocks::{first_broken, is_statement};
pub use depth::first_too_deep;
pub use laws::{blocks_nest, brackets_end, open_blocks_are_open, open_blocks_break};
pub use reading::first_unended;
pub use role::{Mark, Role, Sort};
pub use roles::item_role;
