// Names that are words only in some places.
ghost use Rattle.std.specs.Prelude.{◌≡◌, ℕ, List, IfOk, OnOk};
ghost use Rattle.vb_text.specs.Names.{AreApart, Extends};
ghost use Rattle.vb_syntax.specs.ContextualWords.{AreWords, OptionsApart, with_words};

use std::alloc::AllocError;
use vb_text::{Name, NameTable, names_stay};

/// The names that are words where the grammar asks for them and names elsewhere (Visual Basic Language Specification 11.0, 2.2 and 2.3),
/// of one table of names. Between brackets they are names always.
#[derive(Clone, Copy, Debug, PartialEq, Eq)]
pub struct ContextualWords {
    pub binary: Name,
    pub compare: Name,
    pub custom: Name,
    pub explicit: Name,
    pub infer: Name,
    pub iterator: Name,
    pub off: Name,
    pub strict: Name,
    pub text: Name,
    pub until: Name,
    pub yields: Name,
}

impl ContextualWords {
    /// Puts them into the table, where they are not there yet. Their case does not matter (Visual Basic Language
    /// Specification 11.0, 2.2).
    ///
    /// The error is want of memory; the table may then have some of them.
    pub fn new(names: &mut NameTable) -> Result<ContextualWords, AllocError>
        ensures words { IfOk result (λ w. AreWords names.new w) }
        ensures extends { Extends names.new names.old }
        ensures grown { OnOk result (names.new ≡ with_words names.old) }
    {
        let binary = names.intern("Binary")?;
        let compare = names.intern("Compare")?;
        let custom = names.intern("Custom")?;
        let explicit = names.intern("Explicit")?;
        let infer = names.intern("Infer")?;
        let iterator = names.intern("Iterator")?;
        let off = names.intern("Off")?;
        let strict = names.intern("Strict")?;
        let text = names.intern("Text")?;
        let until = names.intern("Until")?;
        let yields = names.intern("Yield")?;
        names_stay();
        Ok(ContextualWords {
            binary,
            compare,
            custom,
            explicit,
            infer,
            iterator,
            off,
            strict,
            text,
            until,
            yields,
        })
    }
}

/// A law for callers' proofs: the words of options are different names. It does nothing.
#[tactic(auto, using(crate::proofs::OptionWords::options_apart))]
pub fn words_apart()
    ensures { (table : List (List ℕ)) (words : ContextualWords) → AreApart table → AreWords table words → OptionsApart words }
{}

/// What a line is read in: the table's words, and whether it stands in the body of an iterator, where `Yield` is a word
/// (Visual Basic Language Specification 11.0, 10.15).
#[derive(Clone, Copy, Debug, PartialEq, Eq)]
pub struct Context {
    pub words: ContextualWords,
    pub in_iterator: bool,
}
