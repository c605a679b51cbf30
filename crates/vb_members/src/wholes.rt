// A part of a tree that is whole, put where it stands.
ghost use Rattle.std.specs.Prelude.{◌≡◌, Some, None, if◌then◌else◌};
ghost use Rattle.vb_blocks.specs.Steps.{Gives};
ghost use Rattle.vb_blocks.specs.Steps as spec;

use crate::events::takes_accessor;
use crate::files::with_type;
use crate::properties::{takes_get, takes_set};
use std::alloc::Global;
use vb_blocks::{
    EventParts, Fault, FileParts, Frame, PropertyParts, Scope, Turn, TypeHeader, Whole,
};
use vb_syntax::{
    Block, Boxed, EventAccessor, EventAccessorKind, GetAccessor, Items, Member, SetAccessor,
    Statement, TypeDeclaration,
};

/// The frame with a part that stands in it.
pub fn put(alloc: Global, whole: Whole, frame: Frame) -> Result<Frame, Fault>
    ensures { Gives (λ f. f) result (spec.put whole frame) }
{
    match frame {
        Frame::Body(scope, body) => put_statement(whole, scope, body),
        Frame::Members(kind, members) => put_member(whole, kind, members),
        Frame::Property(parts) => put_in_property(alloc, whole, parts.into_inner()),
        Frame::Event(parts) => put_accessor(alloc, whole, parts),
        Frame::File(parts) => put_type(alloc, whole, parts),
        other => {
            drop((whole, other));
            Err(Fault::Grammar)
        }
    }
}

fn put_statement(whole: Whole, scope: Scope, body: Block) -> Result<Frame, Fault>
    ensures { Gives (λ f. f) result (spec.put whole (Frame.Body scope body)) }
{
    match whole {
        Whole::Statement(statement) => with_statement(scope, body, statement.into_inner()),
        other => {
            drop((other, scope, body));
            Err(Fault::Grammar)
        }
    }
}

/// One more statement.
pub fn with_statement(scope: Scope, body: Block, statement: Statement) -> Result<Frame, Fault>
    ensures { Gives (λ f. f) result (Some (spec.with_statement scope body statement)) }
{
    let mut body = body;
    body.push(statement)?;
    Ok(Frame::Body(scope, body))
}

fn put_member(whole: Whole, kind: Boxed<TypeHeader>, members: Items<Member>) -> Result<Frame, Fault>
    ensures { Gives (λ f. f) result (spec.put whole (Frame.Members kind members)) }
{
    match whole {
        Whole::Member(member) => with_member(kind, members, member.into_inner()),
        other => {
            drop((other, members));
            Err(Fault::Grammar)
        }
    }
}

/// One more member.
pub fn with_member(
    kind: Boxed<TypeHeader>,
    members: Items<Member>,
    member: Member,
) -> Result<Frame, Fault>
    ensures { Gives (λ f. f) result (Some (spec.with_member kind members member)) }
{
    let mut members = members;
    members.push(member)?;
    Ok(Frame::Members(kind, members))
}

fn put_type(alloc: Global, whole: Whole, parts: Boxed<FileParts>) -> Result<Frame, Fault>
    ensures { Gives (λ f. f) result (spec.put whole (Frame.File parts)) }
{
    match whole {
        Whole::Type(declaration) => with_type(alloc, parts, declaration.into_inner()),
        other => {
            drop((other, parts));
            Err(Fault::Grammar)
        }
    }
}

// PROPERTIES

fn put_in_property(alloc: Global, whole: Whole, parts: PropertyParts) -> Result<Frame, Fault>
    ensures { Gives (λ f. f) result (spec.put whole (Frame.Property parts)) }
{
    match whole {
        Whole::Get(get) => {
            let is_free = takes_get(&parts);
            property_given(alloc, is_free, with_get(parts, get))
        }
        Whole::Set(set) => {
            let is_free = takes_set(&parts);
            property_given(alloc, is_free, with_set(parts, set))
        }
        other => {
            drop(other);
            property_given(alloc, false, parts)
        }
    }
}

fn with_get(parts: PropertyParts, get: GetAccessor) -> PropertyParts
    ensures { result ≡ spec.with_get parts get }
{
    PropertyParts {
        line: parts.line,
        modifiers: parts.modifiers,
        header: parts.header,
        get: Some(get),
        set: parts.set,
    }
}

fn with_set(parts: PropertyParts, set: SetAccessor) -> PropertyParts
    ensures { result ≡ spec.with_set parts set }
{
    PropertyParts {
        line: parts.line,
        modifiers: parts.modifiers,
        header: parts.header,
        get: parts.get,
        set: Some(set),
    }
}

// The property, where it may stand.
fn property_given(alloc: Global, may_stand: bool, parts: PropertyParts) -> Result<Frame, Fault>
    ensures { Gives (λ f. f) result (if may_stand then Some (Frame.Property parts) else None) }
{
    let frame = property_frame(alloc, parts)?;
    if may_stand {
        Ok(frame)
    } else {
        drop(frame);
        Err(Fault::Grammar)
    }
}

/// The frame of a property with accessors.
pub fn property_frame(alloc: Global, parts: PropertyParts) -> Result<Frame, Fault>
    ensures { Gives (λ f. f) result (Some (Frame.Property parts)) }
{
    let parts = Boxed::new(alloc, parts)?;
    Ok(Frame::Property(parts))
}

// EVENTS

fn put_accessor(alloc: Global, whole: Whole, parts: Boxed<EventParts>) -> Result<Frame, Fault>
    ensures { Gives (λ f. f) result (spec.put whole (Frame.Event parts)) }
{
    match whole {
        Whole::Event(kind, accessor) => {
            let is_free = takes_accessor(kind, parts.get());
            event_given(
                alloc,
                is_free,
                with_accessor(parts.into_inner(), kind, accessor),
            )
        }
        other => {
            drop((other, parts));
            Err(Fault::Grammar)
        }
    }
}

// The event, where it may stand.
fn event_given(alloc: Global, may_stand: bool, parts: EventParts) -> Result<Frame, Fault>
    ensures { Gives (λ f. f) result (if may_stand then Some (Frame.Event parts) else None) }
{
    let parts = Boxed::new(alloc, parts)?;
    if may_stand {
        Ok(Frame::Event(parts))
    } else {
        drop(parts);
        Err(Fault::Grammar)
    }
}

fn with_accessor(parts: EventParts, kind: EventAccessorKind, accessor: EventAccessor) -> EventParts
    ensures { result ≡ spec.with_accessor parts kind accessor }
{
    let mut parts = parts;
    match kind {
        EventAccessorKind::AddHandler => parts.add_handler = Some(accessor),
        EventAccessorKind::RemoveHandler => parts.remove_handler = Some(accessor),
        EventAccessorKind::RaiseEvent => parts.raise_event = Some(accessor),
    }
    parts
}
