//! From the bytes of a file to its logical lines of tokens.
//!
//! Proved: the lines are those of the text, or refused with the least rule, exactly.
//!
//! Only tested: rows of texts, by `vb_tests`.
//!
//! Assumed: the categories of the crates `unicode` and `ucd_category`.
#![tactic(auto)]

mod characters;
mod error;
mod keywords;
mod laws;
mod lines;
mod literals;
mod numbers;
mod piece;
mod pieces;
mod reader;
mod region_lines;
mod regions;
mod symbols;
mod token;

pub use error::LexErr;
pub use laws::{
    lines_or_refusal, lines_stay, longest_token, one_reading, one_refusal, one_table, pieces_spell,
    token_taken,
};
pub use lines::lex;
pub use symbols::longest_symbol;
