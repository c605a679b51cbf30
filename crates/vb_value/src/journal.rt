// The journal of a run, and what its threads have begun since.
ghost use Rattle.std.specs.Prelude.{◌≡◌, ◌+◌, ◌≤◌, ◌++◌, [], ◌∷◌, length, OnOk, OnErr, IfNone, IfSome};

use std::alloc::{AllocError, Global};
use std::marker::Model;

/// One recorded action: the thread that did it, the worker that ran the thread, and whether it counts as a step of the
/// source program.
#[derive(Clone, Copy, Debug, PartialEq, Eq)]
pub struct Entry {
    pub thread: u32,
    pub worker: u16,
    pub committed: bool,
}

/// The recorded actions of a run in order, seen as the list of them.
#[derive(Drop)]
pub struct Journal {
    entries: Vec<Entry>,
}

impl Model for Journal {
    ghost use Rattle.std.specs.Prelude.{List};
    ghost use Rattle.vb_value.specs.declared.journal.Entry.{Entry as OneEntry};

    ghost Value = { List OneEntry };

    ghost view = { λ j. j.entries.items };
}

impl Journal {
    /// A journal without entries. It takes no memory.
    pub fn new(alloc: Global) -> Self
        ensures { result ≡ [] }
    {
        Journal {
            entries: Vec::new(alloc),
        }
    }

    /// Adds an entry. Without memory the journal stays as it was.
    pub fn push(&mut self, entry: Entry) -> Result<(), AllocError>
        ensures ok { OnOk result (self.new ≡ self.old ++ entry ∷ []) }
        ensures err { OnErr result (self.new ≡ self.old) }
    {
        self.entries.push(entry)?;
        Ok(())
    }

    /// Takes the last entry back, where there is one.
    pub fn pop(&mut self) -> Option<Entry>
        ensures none { IfNone result ((self.old ≡ []) × (self.new ≡ [])) }
        ensures some { IfSome result (λ entry. self.old ≡ self.new ++ entry ∷ []) }
    {
        self.entries.pop()
    }

    /// The entries in order.
    pub fn entries(&self) -> &[Entry]
        ensures { result.now ≡ self.now }
    {
        self.entries.as_slice()
    }
}

/// For each thread the number of statements that it has begun since its last committed entry, seen as the list of them.
#[derive(Drop)]
pub struct Tails {
    main: u64,
}

impl Model for Tails {
    ghost use Rattle.std.specs.Prelude.{List, ℕ, [], ◌∷◌};

    ghost Value = { List ℕ };

    ghost view = { λ t. t.main ∷ [] };
}

impl Tails {
    /// The numbers of a run with one thread.
    pub fn of_main(main: u64) -> Self
        ensures { result ≡ main ∷ [] }
    {
        Tails { main }
    }

    /// How many statements thread 0 has begun since its last committed entry.
    pub fn main(&self) -> u64
        ensures { self.now ≡ result ∷ [] }
    {
        self.main
    }
}
