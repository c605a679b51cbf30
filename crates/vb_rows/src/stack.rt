// The blocks that are open, in the order in which they were opened.
ghost use Rattle.std.specs.Prelude.{◌≡◌, ◌<◌, if◌then◌else◌, List, [], ◌∷◌, ◌++◌, length, reverse, OnOk, MatchOption};
ghost use Rattle.vb_rows.specs.declared.stack.OpenBlock.{OpenBlock as OneBlock};
ghost use Rattle.vb_ends.specs.Counts as counting;
ghost use Rattle.vb_ends.specs.Enders as spec;
ghost use Rattle.vb_ends.specs.Counts.{AreCounts, holds, same_sort};
ghost use Rattle.vb_rows.specs.Stacks.{sorts_of, innermost_iterator, innermost_of, opened, ended_statement, passed, ended_other, stepped};

use std::alloc::{AllocError, Global};
use std::marker::Model;
use vb_ends::{Role, Sort, is_statement};
use vb_syntax::Items;

/// A block that is open.
#[derive(Clone, Copy, Debug, PartialEq, Eq)]
pub struct OpenBlock {
    pub sort: Sort,
    /// Whether what stands directly in it is in the body of an iterator.
    pub in_iterator: bool,
}

/// The blocks that are open, the innermost last.
#[derive(Drop)]
pub struct Stack {
    blocks: Items<OpenBlock>,
    // How many of each sort there are, by its number: an ender whose sort isn't open goes through no blocks.
    counts: [usize; 21],
}

impl Model for Stack {
    ghost Value = { List OneBlock };

    ghost view = { λ a. a.blocks };

    ghost invariant = { λ a. AreCounts a.counts (sorts_of a.blocks) };
}

fn is_same(a: Sort, b: Sort) -> bool
    ensures { result ≡ same_sort a b }
{
    a == b
}

fn number(sort: Sort) -> usize
    ensures is { result ≡ counting.number sort }
    ensures below { result < 21 }
{
    match sort {
        Sort::If => 0,
        Sort::While => 1,
        Sort::Do => 2,
        Sort::For => 3,
        Sort::Select => 4,
        Sort::Try => 5,
        Sort::SyncLock => 6,
        Sort::With => 7,
        Sort::Using => 8,
        Sort::Sub => 9,
        Sort::Function => 10,
        Sort::Property => 11,
        Sort::Get => 12,
        Sort::Set => 13,
        Sort::Event => 14,
        Sort::AddHandler => 15,
        Sort::RemoveHandler => 16,
        Sort::RaiseEvent => 17,
        Sort::Module => 18,
        Sort::Class => 19,
        Sort::Interface => 20,
    }
}

impl Stack {
    pub fn new(alloc: Global) -> Self
        ensures { result ≡ [] }
    {
        Stack {
            blocks: Items::new(alloc),
            counts: [0; 21],
        }
    }

    fn push(&mut self, block: OpenBlock) -> Result<(), AllocError>
        ensures { OnOk result (self.new ≡ self.old ++ block ∷ []) }
    {
        let number = number(block.sort);
        self.blocks.push(block)?;
        // Of the sort were open no more blocks than there were in all, and now there is one more.
        prove!(self.counts[number] < self.blocks.len());
        self.counts[number] += 1;
        Ok(())
    }

    fn pop(&mut self) -> Option<OpenBlock>
        ensures { MatchOption result ((self.old ≡ []) × (self.new ≡ [])) (λ last. self.old ≡ self.new ++ last ∷ []) }
    {
        let Some(last) = self.blocks.pop() else {
            return None;
        };
        self.counts[number(last.sort)] -= 1;
        Some(last)
    }

    // The innermost block.
    fn last(&self) -> Option<OpenBlock>
        ensures { MatchOption result (self.now ≡ []) (λ last. (rest : List OneBlock) × (self.now ≡ rest ++ last ∷ [])) }
    {
        self.blocks.as_slice().last().copied()
    }

    // Whether a block of the sort is open.
    fn holds(&self, sort: Sort) -> bool
        ensures { result ≡ holds sort (sorts_of (reverse self.now)) }
    {
        self.counts[number(sort)] > 0
    }

    /// Whether what stands directly in the innermost block is in the body of an iterator.
    pub fn in_iterator(&self) -> bool
        ensures { result ≡ innermost_iterator (reverse self.now) }
    {
        match self.last() {
            Some(block) => block.in_iterator,
            None => false,
        }
    }

    /// Whether the innermost block is of the sort.
    pub fn is_innermost(&self, sort: Sort) -> bool
        ensures { result ≡ innermost_of sort (reverse self.now) }
    {
        match self.last() {
            Some(block) => is_same(block.sort, sort),
            None => false,
        }
    }

    // The same of what stands directly in a further block, which is an iterator or not. A statement is part of the block round it.
    fn iterates(&self, sort: Sort, is_iterator: bool) -> bool
        ensures { result ≡ (if spec.is_statement sort then innermost_iterator (reverse self.now) else is_iterator) }
    {
        if is_statement(sort) {
            self.in_iterator()
        } else {
            is_iterator
        }
    }

    /// Opens a block of the sort, which is an iterator or not.
    pub fn open(&mut self, sort: Sort, is_iterator: bool) -> Result<(), AllocError>
        ensures { OnOk result (reverse self.new ≡ opened sort is_iterator (reverse self.old)) }
    {
        let in_iterator = self.iterates(sort, is_iterator);
        self.push(OpenBlock { sort, in_iterator })?;
        Ok(())
    }

    // The ender of a statement of the sort.
    fn end_statement(&mut self, sort: Sort)
        ensures { reverse self.new ≡ ended_statement sort (reverse self.old) }
    {
        if self.is_innermost(sort) {
            self.pop();
            return;
        }
    }

    // Takes the innermost block of the sort out, with those inside it.
    fn pass(&mut self, sort: Sort)
        ensures { reverse self.new ≡ passed sort (reverse self.old) }
    {
        while let Some(block) = self.pop() {
            if is_same(block.sort, sort) {
                return;
            }
        }
    }

    // The ender of a block of another sort.
    #[tactic(auto, unfolding(crate::specs::Stacks::ended_other))]
    fn end_other(&mut self, sort: Sort)
        ensures { reverse self.new ≡ ended_other sort (reverse self.old) }
    {
        if self.holds(sort) {
            self.pass(sort);
        }
    }

    /// What an item does to blocks, which is the header of an iterator or not.
    #[tactic(auto, unfolding(crate::specs::Stacks::stepped))]
    pub fn step(&mut self, role: Role, is_iterator: bool) -> Result<(), AllocError>
        ensures { OnOk result (reverse self.new ≡ stepped role is_iterator (reverse self.old)) }
    {
        match role {
            Role::Opens(sort) => self.open(sort, is_iterator)?,
            Role::Ends(sort) => {
                if is_statement(sort) {
                    self.end_statement(sort);
                } else {
                    self.end_other(sort);
                }
            }
            Role::Stays => {}
        }
        Ok(())
    }
}
