// Which rows of a file open a block and which end one.
ghost use Rattle.std.specs.Prelude.{◌≡◌};
ghost use Rattle.std.specs.Option.{option_copied};
ghost use Rattle.vb_ends.specs.Roles as spec;

use crate::role::{Role, Sort};
use vb_syntax::{
    BlockWord, DeclarationLine, EventAccessorKind, FunctionKind, Item, Modifier, NameModifier,
    PropertyHeader, must_override,
};

// Whether the line is the header of a member as an interface has it: without modifiers, and implementing nothing.
fn is_header_of_interface(line: &DeclarationLine) -> bool
    ensures { result ≡ spec.is_header_of_interface line.now }
{
    match line {
        DeclarationLine::Sub(modifiers, _, implements) => {
            modifiers.is_empty() && implements.is_empty()
        }
        DeclarationLine::Function {
            modifiers,
            kind: FunctionKind::Regular,
            implements,
            ..
        } => modifiers.is_empty() && implements.is_empty(),
        DeclarationLine::Property(modifiers, header) => {
            modifiers.is_empty() && header.is_of_interface()
        }
        DeclarationLine::Event {
            modifiers,
            implements,
            ..
        } => modifiers.is_empty() && implements.is_empty(),
        _ => false,
    }
}

// Whether the item behind goes on with a property.
fn goes_on_property(next: Option<&Item>) -> bool
    ensures { result ≡ spec.goes_on_property (option_copied next.entry) }
{
    match next {
        Some(item) => item.goes_on_property(),
        None => false,
    }
}

fn accessor_sort(kind: EventAccessorKind) -> Sort
    ensures { result ≡ spec.accessor_sort kind }
{
    match kind {
        EventAccessorKind::AddHandler => Sort::AddHandler,
        EventAccessorKind::RemoveHandler => Sort::RemoveHandler,
        EventAccessorKind::RaiseEvent => Sort::RaiseEvent,
    }
}

// Whether a member has no block: where it must be overridden, and directly in an interface.
fn has_no_block(inside: bool, modifiers: &[Modifier], line: &DeclarationLine) -> bool
    ensures { result ≡ spec.has_no_block inside modifiers.now line.now }
{
    must_override(modifiers) || inside && is_header_of_interface(line)
}

// The sort of the block that a line of declarations opens.
fn opened_by(inside: bool, line: &DeclarationLine, next: Option<&Item>) -> Option<Sort>
    ensures { result ≡ spec.opened_by inside line.now (option_copied next.entry) }
{
    match line {
        DeclarationLine::Module(_, _) => Some(Sort::Module),
        DeclarationLine::Class { .. } => Some(Sort::Class),
        DeclarationLine::Interface { .. } => Some(Sort::Interface),
        DeclarationLine::Sub(modifiers, _, _) => {
            (!has_no_block(inside, modifiers.as_slice(), line)).then_some(Sort::Sub)
        }
        DeclarationLine::Constructor(modifiers, _, _) => {
            (!must_override(modifiers.as_slice())).then_some(Sort::Sub)
        }
        DeclarationLine::Function { modifiers, .. } => {
            (!has_no_block(inside, modifiers.as_slice(), line)).then_some(Sort::Function)
        }
        DeclarationLine::Property(modifiers, _) => {
            (!has_no_block(inside, modifiers.as_slice(), line) && goes_on_property(next)).then_some(
                Sort::Property,
            )
        }
        DeclarationLine::CustomEvent(_, _, _) => Some(Sort::Event),
        DeclarationLine::Get(_) => Some(Sort::Get),
        DeclarationLine::Set(_, _) => Some(Sort::Set),
        DeclarationLine::EventAccessor(kind, _) => Some(accessor_sort(*kind)),
        _ => None,
    }
}

// The sort of the block that an item opens.
fn opened(inside: bool, item: &Item, next: Option<&Item>) -> Option<Sort>
    ensures { result ≡ spec.opened inside item.now (option_copied next.entry) }
{
    match item {
        Item::If(_) => Some(Sort::If),
        Item::While(_) => Some(Sort::While),
        Item::Do(_) => Some(Sort::Do),
        Item::For(_, _, _, _) | Item::ForEach(_, _) => Some(Sort::For),
        Item::Select(_) => Some(Sort::Select),
        Item::Try => Some(Sort::Try),
        Item::SyncLock(_) => Some(Sort::SyncLock),
        Item::With(_) => Some(Sort::With),
        Item::Using(_) => Some(Sort::Using),
        Item::Declares(line) => opened_by(inside, line.get(), next),
        _ => None,
    }
}

fn word_sort(word: BlockWord) -> Sort
    ensures { result ≡ spec.word_sort word }
{
    match word {
        BlockWord::Module => Sort::Module,
        BlockWord::Class => Sort::Class,
        BlockWord::Interface => Sort::Interface,
        BlockWord::Sub => Sort::Sub,
        BlockWord::Function => Sort::Function,
        BlockWord::Property => Sort::Property,
        BlockWord::Get => Sort::Get,
        BlockWord::Set => Sort::Set,
        BlockWord::Event => Sort::Event,
        BlockWord::AddHandler => Sort::AddHandler,
        BlockWord::RemoveHandler => Sort::RemoveHandler,
        BlockWord::RaiseEvent => Sort::RaiseEvent,
        BlockWord::If => Sort::If,
        BlockWord::Select => Sort::Select,
        BlockWord::SyncLock => Sort::SyncLock,
        BlockWord::Try => Sort::Try,
        BlockWord::Using => Sort::Using,
        BlockWord::While => Sort::While,
        BlockWord::With => Sort::With,
    }
}

// The sort of the block that an item ends.
fn ended(item: &Item) -> Option<Sort>
    ensures { result ≡ spec.ended item.now }
{
    match item {
        Item::End(word) => Some(word_sort(*word)),
        Item::Loop(_) => Some(Sort::Do),
        Item::Next(_) => Some(Sort::For),
        _ => None,
    }
}

/// What an item that stands alone on its row does to blocks (Visual Basic Language Specification 11.0, 7, 9 and 10): `inside` where it
/// stands directly in an interface, with this item behind it.
pub fn item_role(inside: bool, item: &Option<Item>, next: Option<&Item>) -> Role
    ensures { result ≡ spec.item_role inside item.now (option_copied next.entry) }
{
    let Some(item) = item else {
        return Role::Stays;
    };
    if let Some(sort) = opened(inside, item, next) {
        return Role::Opens(sort);
    }
    match ended(item) {
        Some(sort) => Role::Ends(sort),
        None => Role::Stays,
    }
}
