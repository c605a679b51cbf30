//! The tests of the crates from `vb_lexer` to `vb_bind`, each with rows of source texts and what is told of them.
//!
//! Proved: each test is safe and ends.
//!
//! Only tested: the rows.
//!
//! Assumed: that the answers written in the tables are right.
#![tactic(auto)]

ghost use Rattle.std.specs.Prelude.{IfOk};
ghost use Rattle.vb_syntax.specs.ContextualWords.{OptionsApart};

use std::alloc::AllocError;
use vb_syntax::{ContextualWords, words_apart};
use vb_text::NameTable;

#[cfg(test)]
mod declarations;
#[cfg(test)]
mod ends;
#[cfg(test)]
mod expressions;
#[cfg(test)]
mod files;
#[cfg(test)]
mod lexing;
#[cfg(test)]
mod literals;
#[cfg(test)]
mod programs;
#[cfg(test)]
mod read;
#[cfg(test)]
mod rows;
#[cfg(test)]
mod statements;
#[cfg(test)]
mod tell;
#[cfg(test)]
mod tell_declarations;
#[cfg(test)]
mod tell_expressions;
#[cfg(test)]
mod tell_items;

/// The words of a table of names as the calls of the parser ask for them: those of options are different names (Visual Basic Language
/// Specification 11.0, 6.2).
///
/// The error is want of memory; the table may then have some of them.
pub fn words_of(names: &mut NameTable) -> Result<ContextualWords, AllocError>
    ensures { IfOk result (λ words. OptionsApart words) }
{
    let words = ContextualWords::new(names)?;
    names.are_apart();
    words_apart();
    Ok(words)
}
