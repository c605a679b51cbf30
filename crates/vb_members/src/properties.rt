// Properties with accessors.
ghost use Rattle.std.specs.Prelude.{◌≡◌};
ghost use Rattle.vb_blocks.specs.Steps.{Gives};
ghost use Rattle.vb_blocks.specs.Steps as spec;

use std::alloc::Global;
use vb_blocks::{
    AccessorHeader, Fault, Frame, PropertyParts, Scope, Turn, begun, closes_member, given, is_word,
};
use vb_syntax::{
    Access, BlockWord, Boxed, DeclarationLine, Item, Items, Member, MemberForm, Parameter,
    PropertyAccessors,
};

/// An item in a property.
pub fn property_turn(
    alloc: Global,
    parts: Boxed<PropertyParts>,
    line: u32,
    item: Item,
) -> Result<Turn, Fault>
    ensures { Gives (λ t. t) result (spec.property_turn parts line item) }
{
    match item {
        Item::Declares(declaration) => property_accessor(
            alloc,
            parts,
            line,
            declaration.into_inner(),
        ),
        Item::End(word) => property_end(alloc, parts, line, word),
        other => {
            drop((parts, other));
            Err(Fault::Grammar)
        }
    }
}

fn property_accessor(
    alloc: Global,
    parts: Boxed<PropertyParts>,
    line: u32,
    declaration: DeclarationLine,
) -> Result<Turn, Fault>
    ensures { Gives (λ t. t) result (spec.property_turn parts line (Item.Declares declaration)) }
{
    match declaration {
        DeclarationLine::Get(access) => property_get(alloc, parts, line, access),
        DeclarationLine::Set(access, parameters) => {
            property_set(alloc, parts, line, access, parameters)
        }
        other => {
            drop((parts, other));
            Err(Fault::Grammar)
        }
    }
}

fn property_get(
    alloc: Global,
    parts: Boxed<PropertyParts>,
    line: u32,
    access: Option<Access>,
) -> Result<Turn, Fault>
    ensures { Gives (λ t. t) result (spec.property_turn parts line (Item.Declares (DeclarationLine.Get access))) }
{
    let is_free = takes_get(parts.get());
    let accessor = begun(alloc, Scope::Accessor(AccessorHeader::Get(line, access)));
    given(is_free, Turn::Opens(Frame::Property(parts), accessor))
}

fn property_set(
    alloc: Global,
    parts: Boxed<PropertyParts>,
    line: u32,
    access: Option<Access>,
    parameters: Items<Parameter>,
) -> Result<Turn, Fault>
    ensures { Gives (λ t. t) result (spec.property_turn parts line (Item.Declares (DeclarationLine.Set access parameters))) }
{
    let is_free = takes_set(parts.get());
    let header = AccessorHeader::Set(line, access, parameters);
    let accessor = begun(alloc, Scope::Accessor(header));
    given(is_free, Turn::Opens(Frame::Property(parts), accessor))
}

/// Whether a `Get` may stand behind the accessors of a property.
pub fn takes_get(parts: &PropertyParts) -> bool
    ensures { result ≡ spec.takes_get parts.now.get parts.now.set }
{
    parts.get.is_none() && parts.set.is_none()
}

/// Whether a `Set` may.
pub fn takes_set(parts: &PropertyParts) -> bool
    ensures { result ≡ spec.takes_set parts.now.set }
{
    parts.set.is_none()
}

fn property_end(
    alloc: Global,
    parts: Boxed<PropertyParts>,
    line: u32,
    word: BlockWord,
) -> Result<Turn, Fault>
    ensures { Gives (λ t. t) result (spec.property_turn parts line (Item.End word)) }
{
    closes_member(
        alloc,
        is_word(BlockWord::Property, Some(word)),
        property_of(parts.into_inner()),
    )
}

fn property_of(parts: PropertyParts) -> Member
    ensures { result ≡ spec.property_of parts }
{
    let accessors = PropertyAccessors {
        get: parts.get,
        set: parts.set,
    };
    Member {
        line: parts.line,
        modifiers: parts.modifiers,
        form: MemberForm::Property(parts.header, Some(accessors)),
    }
}
