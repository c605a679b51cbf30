// Names: those that the grammar uses, those of locals and that of the module.
ghost use Rattle.std.specs.Prelude.{◌≡◌, ◌<◌, length, IfOk, IfSome, OnOk};
ghost use Rattle.vb_text.specs.Names.{Extends};
ghost use Rattle.vb_bind.specs.Grammar.{AreKnown, with_known};
ghost use Rattle.vb_bind.specs.Parsing.{is_one_of, same_name, is_free as is_free_name, name_read, is_new, local_from};

use std::alloc::AllocError;
use vb_bound::LocalId;
use vb_text::{Name, NameTable, names_stay};

/// The names that the grammar of a program uses (Visual Basic Language Specification 11.0, 2.2), of one table of names:
/// `System`, `Console`, `WriteLine` and `Main`.
#[derive(Clone, Copy, Debug, PartialEq, Eq)]
pub struct KnownNames {
    /// `System`, the namespace that a program imports (Visual Basic Language Specification 11.0, 6.3.2).
    pub system: Name,
    /// `Console`, the class of that namespace.
    pub console: Name,
    /// `WriteLine`, the method of that class.
    pub write_line: Name,
    /// `Main`, where a program begins (Visual Basic Language Specification 11.0, 6.1).
    pub main: Name,
}

impl KnownNames {
    /// Puts them into the table, where they are not there yet. Their case does not matter (Visual Basic Language
    /// Specification 11.0, 2.2).
    ///
    /// The error is want of memory; the table may then have some of them.
    pub fn new(names: &mut NameTable) -> Result<KnownNames, AllocError>
        ensures known { IfOk result (λ k. AreKnown names.new k) }
        ensures extends { Extends names.new names.old }
        ensures grown { OnOk result (names.new ≡ with_known names.old) }
    {
        let system = names.intern("System")?;
        let console = names.intern("Console")?;
        let write_line = names.intern("WriteLine")?;
        let main = names.intern("Main")?;
        names_stay();
        Ok(KnownNames {
            system,
            console,
            write_line,
            main,
        })
    }
}

// Whether two names are one.
pub fn is_same(left: Name, right: Name) -> bool
    ensures { result ≡ same_name left right }
{
    left == right
}

// The name, where a local or the module may have it.
pub fn new_name_of(known: &KnownNames, name: Name) -> Option<Name>
    ensures { result ≡ name_read known.now name }
{
    if is_free(known, name) {
        Some(name)
    } else {
        None
    }
}

// Whether a name is none that a program uses without declaring it.
fn is_free(known: &KnownNames, name: Name) -> bool
    ensures { result ≡ is_free_name known.now name }
{
    !(is_same(known.system, name) || is_same(known.console, name) || is_same(known.main, name))
}

// Whether a name is among others.
fn is_known(names: &[Name], name: Name) -> bool
    ensures { result ≡ is_one_of name names.now }
{
    for known in names {
        if is_same(*known, name) {
            return true;
        }
    }
    false
}

// Whether a name is neither the module's nor among the locals'.
pub fn is_new_name(own_name: Name, names: &[Name], name: Name) -> bool
    ensures { result ≡ is_new own_name names.now name }
{
    !(is_same(own_name, name) || is_known(names, name))
}

// The local of a name.
pub fn local_of(names: &[Name], name: Name) -> Option<LocalId>
    ensures number { result ≡ local_from 0 names.now name }
    ensures bound { IfSome result (λ x. x.0 < length names.now) }
{
    let mut number = 0;
    for known in names {
        if is_same(*known, name) {
            return Some(LocalId(number));
        }
        number += 1;
    }
    None
}
