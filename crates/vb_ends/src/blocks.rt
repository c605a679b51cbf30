// Which blocks are open, and where a block has no end or an end has no block.
ghost use Rattle.std.specs.Prelude.{◌≡◌, List, [], ◌∷◌, reverse, OnOk, OnErr, IfOk};
ghost use Rattle.vb_ends.specs.declared.role.Mark.{Mark as OneMark};
ghost use Rattle.vb_ends.specs.Depth.{AreSoMany};
ghost use Rattle.vb_ends.specs.Enders as spec;
ghost use Rattle.vb_diag.specs.Broken.{IsLeastLine};
ghost use Rattle.vb_ends.specs.Enders.{BreaksBackwards, IsBroken};
ghost use Rattle.vb_ends.specs.OpenBlocks as open_blocks;
ghost use Rattle.vb_ends.specs.Stack.{Tracks, state_of, ended_statement, ended_other, passed, stepped, left};

use crate::role::{Mark, Role, Sort};
use crate::stack::{Open, Stack, is_same};
use std::alloc::{AllocError, Global};
use vb_diag::lesser;

/// The blocks of a file, as far as its marks were read (Visual Basic Language Specification 11.0, 7, 9 and 10).
#[derive(Drop)]
pub struct Blocks {
    // The blocks that are open.
    stack: Stack,
    // The least line at which a block has no end or an end has no block, as far as it is known.
    first: Option<u32>,
}

/// Whether the blocks of the sort are statements (Visual Basic Language Specification 11.0, 10).
pub fn is_statement(sort: Sort) -> bool
    ensures { result ≡ spec.is_statement sort }
{
    matches!(
        sort,
        Sort::If
            | Sort::While
            | Sort::Do
            | Sort::For
            | Sort::Select
            | Sort::Try
            | Sort::SyncLock
            | Sort::With
            | Sort::Using
    )
}

impl Blocks {
    pub fn new(alloc: Global) -> Self
        ensures { Tracks result [] }
    {
        Blocks {
            stack: Stack::new(alloc),
            first: None,
        }
    }

    // The ender of a statement of the sort.
    #[tactic(auto, unfolding(crate::specs::Stack::ended_statement))]
    fn end_statement(&mut self, sort: Sort, line: u32)
        ensures { state_of self.new ≡ ended_statement sort line (reverse self.old.stack) self.old.first }
    {
        if let Some(block) = self.stack.last()
            && is_same(block.sort, sort)
        {
            self.stack.pop();
            return;
        }
        self.first = lesser(self.first, Some(line));
    }

    // Takes the innermost block of the sort out, with those inside it, which have no end.
    fn pass(&mut self, sort: Sort)
        ensures { state_of self.new ≡ passed sort (reverse self.old.stack) self.old.first }
    {
        while let Some(block) = self.stack.pop() {
            if is_same(block.sort, sort) {
                return;
            }
            self.first = lesser(self.first, Some(block.line));
        }
    }

    // The ender of a block of another sort.
    #[tactic(auto, unfolding(crate::specs::Stack::ended_other))]
    fn end_other(&mut self, sort: Sort, line: u32)
        ensures { state_of self.new ≡ ended_other sort line (reverse self.old.stack) self.old.first }
    {
        if self.stack.holds(sort) {
            self.pass(sort);
        } else {
            self.first = lesser(self.first, Some(line));
        }
    }

    #[tactic(auto, unfolding(crate::specs::Stack::stepped))]
    fn step(&mut self, role: Role, line: u32) -> Result<(), AllocError>
        ensures ok { OnOk result (state_of self.new ≡ stepped role line (state_of self.old)) }
        ensures err { OnErr result (self.new ≡ self.old) }
    {
        match role {
            Role::Opens(sort) => self.stack.push(Open { sort, line })?,
            Role::Ends(sort) => {
                if is_statement(sort) {
                    self.end_statement(sort, line);
                } else {
                    self.end_other(sort, line);
                }
            }
            Role::Stays => {}
        }
        Ok(())
    }

    /// Behind the marks so far stands one more, of the role, in the line.
    ///
    /// The error is want of memory; the blocks are then as they were.
    pub fn take(&mut self, role: Role, line: u32) -> Result<(), AllocError>
        ensures ok { OnOk result ((marks : List OneMark) → Tracks self.old marks → Tracks self.new (record { role = role; line = line } ∷ marks)) }
        ensures err { OnErr result (self.new ≡ self.old) }
    {
        self.step(role, line)
    }

    /// How many blocks are open.
    pub fn depth(&self) -> usize
        ensures { (marks : List OneMark) → Tracks self.now marks → AreSoMany marks result }
    {
        self.stack.len()
    }

    /// Whether what stands behind the marks so far stands directly in an interface: that is the innermost open block.
    pub fn in_interface(&self) -> bool
        ensures { (marks : List OneMark) → Tracks self.now marks → result ≡ open_blocks.in_interface marks }
    {
        match self.stack.last() {
            Some(block) => is_same(block.sort, Sort::Interface),
            None => false,
        }
    }

    /// The file has ended: the least line at which a block has no end or an end has no block.
    pub fn finish(self) -> Option<u32>
        ensures { (marks : List OneMark) → Tracks self marks → IsLeastLine (BreaksBackwards marks) result }
    {
        let Blocks {
            mut stack,
            mut first,
        } = self;
        while let Some(block) = stack.pop() {
            first = lesser(first, Some(block.line));
        }
        first
    }
}

/// The least line of a file of these marks at which a block has no end or an end has no block (Visual Basic Language Specification
/// 11.0, 7, 9 and 10).
///
/// The error is want of memory.
pub fn first_broken(alloc: Global, marks: &[Mark]) -> Result<Option<u32>, AllocError>
    ensures { IfOk result (λ first. IsLeastLine (IsBroken marks.now) first) }
{
    let mut blocks = Blocks::new(alloc);
    for mark in marks {
        blocks.take(mark.role, mark.line)?;
    }
    Ok(blocks.finish())
}
