//! The rules of the language that a text may break, which of the broken ones is told, and the line that tells it.
//!
//! A broken rule is a [`Refusal`]. Of several the least is told: files come in the order in which they were given, then lines, then
//! numbers. [`lesser`] joins two answers into one.
//!
//! A rule has a number, printed as `V` and three digits, and a text. A line of refusal names the
//! file, the line in it and the rule: `main.vb(3): error V140: the name isn't declared`. Only
//! [`refusal_line`] takes memory.
//!
//! Proved: the table of rules, the line that tells one, and the order and the least of broken rules.
//!
//! Only tested: that a line is made with ample memory.
//!
//! Assumed: nothing but memory and itoa.
#![tactic(auto)]

mod broken;
mod refusal;
mod rule;
mod table;

pub use broken::{broken_at, lesser, lesser_joins};
pub use refusal::{Refusal, refusal_line};
pub use rule::{Rule, rule_text};

#[cfg(test)]
mod tests;
