// Which blocks are open where a row is read.
ghost use Rattle.std.specs.Prelude.{◌≡◌, ◌∷◌, ◌&&◌, List, [], Option, reverse, OnOk};
ghost use Rattle.vb_syntax.specs.declared.item.Item.{Item as OneItem};
ghost use Rattle.vb_ends.specs.Roles.{goes_on_property as goes_on};
ghost use Rattle.vb_rows.specs.Rows as spec;
ghost use Rattle.vb_rows.specs.Tracking.{Tracks, settled, waits as waits_for_more};

use crate::stack::Stack;
use std::alloc::{AllocError, Global};
use vb_ends::{Role, Sort, item_role};
use vb_syntax::{BlockWord, DeclarationLine, FunctionKind, Item};

/// The blocks that are open behind the items so far (Visual Basic Language Specification 11.0, 7, 9 and 10).
#[derive(Drop)]
pub struct OpenBlocks {
    stack: Stack,
    // Whether the last item is the header of a property that opens a block if the next item goes on with a property.
    waits: bool,
}

// Whether the item is the header of an iterator.
fn is_iterator(item: &Option<Item>) -> bool
    ensures { result ≡ spec.is_iterator item.now }
{
    let Some(Item::Declares(line)) = item else {
        return false;
    };
    matches!(
        line.get(),
        DeclarationLine::Function {
            kind: FunctionKind::Iterator,
            ..
        }
    )
}

fn goes_on_property(item: &Option<Item>) -> bool
    ensures { result ≡ goes_on item.now }
{
    match item {
        Some(item) => item.goes_on_property(),
        None => false,
    }
}

// Whether the item is the header of a property that opens a block if the next item goes on with a property, by whether it stands
// directly in an interface.
fn waits(inside: bool, item: &Option<Item>) -> bool
    ensures { result ≡ waits_for_more inside item.now }
{
    let Some(Item::Declares(line)) = item else {
        return false;
    };
    if !matches!(line.get(), DeclarationLine::Property(..)) {
        return false;
    }
    let next = Item::End(BlockWord::Property);
    matches!(item_role(inside, item, Some(&next)), Role::Opens(_))
}

impl OpenBlocks {
    pub fn new(alloc: Global) -> Self
        ensures { Tracks result [] }
    {
        OpenBlocks {
            stack: Stack::new(alloc),
            waits: false,
        }
    }

    // Opens the block of a property's header that waits, if the item goes on with the property.
    fn settle(&mut self, item: &Option<Item>) -> Result<(), AllocError>
        ensures { OnOk result (reverse self.new.stack ≡ settled (self.old.waits && goes_on item.now) (reverse self.old.stack)) }
    {
        if self.waits && goes_on_property(item) {
            self.stack.open(Sort::Property, false)?;
        }
        Ok(())
    }

    /// Behind the items so far stands one more. The error is want of memory.
    pub fn take(&mut self, item: &Option<Item>) -> Result<(), AllocError>
        ensures { OnOk result ((before : List (Option OneItem)) → Tracks self.old before → Tracks self.new (item.now ∷ before)) }
    {
        self.settle(item)?;
        let inside = self.stack.is_innermost(Sort::Interface);
        let role = item_role(inside, item, None);
        self.stack.step(role, is_iterator(item))?;
        self.waits = waits(inside, item);
        Ok(())
    }

    /// Whether what stands behind the items so far is in the body of an iterator (10.15).
    pub fn in_iterator(&self) -> bool
        ensures { (before : List (Option OneItem)) → Tracks self.now before → result ≡ spec.in_iterator before }
    {
        self.stack.in_iterator()
    }
}
