// Events with accessors of their own.
ghost use Rattle.std.specs.Prelude.{◌≡◌};
ghost use Rattle.vb_blocks.specs.Steps.{Gives};
ghost use Rattle.vb_blocks.specs.Steps as spec;

use std::alloc::Global;
use vb_blocks::{
    AccessorHeader, EventParts, Fault, Frame, Scope, Turn, begun, closes_member, given,
};
use vb_syntax::{
    BlockWord, Boxed, DeclarationLine, EventAccessor, EventAccessorKind, Item, Items, Member,
    MemberForm, Parameter,
};

/// An item in an event with accessors.
pub fn event_turn(
    alloc: Global,
    parts: Boxed<EventParts>,
    line: u32,
    item: Item,
) -> Result<Turn, Fault>
    ensures { Gives (λ t. t) result (spec.event_turn parts line item) }
{
    match item {
        Item::Declares(declaration) => event_declares(alloc, parts, line, declaration.into_inner()),
        Item::End(word) => event_end(alloc, parts, line, word),
        other => {
            drop((parts, other));
            Err(Fault::Grammar)
        }
    }
}

fn event_declares(
    alloc: Global,
    parts: Boxed<EventParts>,
    line: u32,
    declaration: DeclarationLine,
) -> Result<Turn, Fault>
    ensures { Gives (λ t. t) result (spec.event_turn parts line (Item.Declares declaration)) }
{
    match declaration {
        DeclarationLine::EventAccessor(kind, parameters) => {
            event_accessor(alloc, parts, line, kind, parameters)
        }
        other => {
            drop((parts, other));
            Err(Fault::Grammar)
        }
    }
}

fn event_accessor(
    alloc: Global,
    parts: Boxed<EventParts>,
    line: u32,
    kind: EventAccessorKind,
    parameters: Items<Parameter>,
) -> Result<Turn, Fault>
    ensures { Gives (λ t. t) result (spec.event_turn parts line (Item.Declares (DeclarationLine.EventAccessor kind parameters))) }
{
    let is_free = takes_accessor(kind, parts.get());
    let header = AccessorHeader::Event(line, kind, parameters);
    let accessor = begun(alloc, Scope::Accessor(header));
    given(is_free, Turn::Opens(Frame::Event(parts), accessor))
}

/// Whether the event has no accessor of the kind yet.
pub fn takes_accessor(kind: EventAccessorKind, parts: &EventParts) -> bool
    ensures { result ≡ spec.takes_accessor kind parts.now }
{
    match kind {
        EventAccessorKind::AddHandler => is_missing(&parts.add_handler),
        EventAccessorKind::RemoveHandler => is_missing(&parts.remove_handler),
        EventAccessorKind::RaiseEvent => is_missing(&parts.raise_event),
    }
}

fn is_missing(accessor: &Option<EventAccessor>) -> bool
    ensures { result ≡ spec.is_missing accessor.now }
{
    accessor.is_none()
}

fn event_end(
    alloc: Global,
    parts: Boxed<EventParts>,
    line: u32,
    word: BlockWord,
) -> Result<Turn, Fault>
    ensures { Gives (λ t. t) result (spec.event_turn parts line (Item.End word)) }
{
    match word {
        BlockWord::Event => closes_member(alloc, true, custom_event(parts.into_inner())),
        _ => {
            drop(parts);
            Err(Fault::Grammar)
        }
    }
}

fn custom_event(parts: EventParts) -> Member
    ensures { result ≡ spec.custom_event parts }
{
    Member {
        line: parts.line,
        modifiers: parts.modifiers,
        form: MemberForm::CustomEvent {
            name: parts.name,
            delegate: parts.delegate,
            add_handler: parts.add_handler,
            remove_handler: parts.remove_handler,
            raise_event: parts.raise_event,
        },
    }
}
