// The blocks that are open.
ghost use Rattle.std.specs.Prelude.{◌≡◌, ◌<◌, List, [], ◌∷◌, ◌++◌, length, reverse, OnOk, OnErr, MatchOption};
ghost use Rattle.vb_ends.specs.declared.stack.Open.{Open as OneOpen};
ghost use Rattle.vb_ends.specs.Counts as spec;
ghost use Rattle.vb_ends.specs.Counts.{AreCounts, holds, same_sort};

use crate::role::Sort;
use std::alloc::{AllocError, Global};
use std::marker::Model;
use vb_syntax::Items;

/// A block that is open.
#[derive(Clone, Copy, Debug, PartialEq, Eq)]
pub struct Open {
    pub sort: Sort,
    pub line: u32,
}

/// The blocks that are open, the innermost last.
#[derive(Drop)]
pub struct Stack {
    blocks: Items<Open>,
    // How many of each sort there are, by its number.
    counts: [usize; 21],
}

impl Model for Stack {
    ghost Value = { List OneOpen };

    ghost view = { λ a. a.blocks };

    ghost invariant = { λ a. AreCounts a.counts a.blocks };
}

pub fn is_same(a: Sort, b: Sort) -> bool
    ensures { result ≡ same_sort a b }
{
    a == b
}

fn number(sort: Sort) -> usize
    ensures is { result ≡ spec.number sort }
    ensures below { result < 21 }
{
    match sort {
        Sort::If => 0,
        Sort::While => 1,
        Sort::Do => 2,
        Sort::For => 3,
        Sort::Select => 4,
        Sort::Try => 5,
        Sort::SyncLock => 6,
        Sort::With => 7,
        Sort::Using => 8,
        Sort::Sub => 9,
        Sort::Function => 10,
        Sort::Property => 11,
        Sort::Get => 12,
        Sort::Set => 13,
        Sort::Event => 14,
        Sort::AddHandler => 15,
        Sort::RemoveHandler => 16,
        Sort::RaiseEvent => 17,
        Sort::Module => 18,
        Sort::Class => 19,
        Sort::Interface => 20,
    }
}

impl Stack {
    pub fn new(alloc: Global) -> Self
        ensures { result ≡ [] }
    {
        Stack {
            blocks: Items::new(alloc),
            counts: [0; 21],
        }
    }

    pub fn push(&mut self, block: Open) -> Result<(), AllocError>
        ensures ok { OnOk result (self.new ≡ self.old ++ block ∷ []) }
        ensures err { OnErr result (self.new ≡ self.old) }
    {
        let number = number(block.sort);
        self.blocks.push(block)?;
        // Of the sort were open no more blocks than there were in all, and now there is one more.
        prove!(self.counts[number] < self.blocks.len());
        self.counts[number] += 1;
        Ok(())
    }

    pub fn pop(&mut self) -> Option<Open>
        ensures { MatchOption result ((self.old ≡ []) × (self.new ≡ [])) (λ last. self.old ≡ self.new ++ last ∷ []) }
    {
        let Some(last) = self.blocks.pop() else {
            return None;
        };
        self.counts[number(last.sort)] -= 1;
        Some(last)
    }

    /// The innermost block.
    pub fn last(&self) -> Option<Open>
        ensures { MatchOption result (self.now ≡ []) (λ last. (rest : List OneOpen) × (self.now ≡ rest ++ last ∷ [])) }
    {
        self.blocks.as_slice().last().copied()
    }

    /// How many blocks are open.
    pub fn len(&self) -> usize
        ensures { result ≡ length self.now }
    {
        self.blocks.len()
    }

    /// Whether a block of the sort is open.
    pub fn holds(&self, sort: Sort) -> bool
        ensures { result ≡ holds sort (reverse self.now) }
    {
        self.counts[number(sort)] > 0
    }
}
