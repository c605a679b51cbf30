// The members of a module or a class.
ghost use Rattle.std.specs.Prelude.{◌≡◌, ◌++◌, ◌∷◌, [], Some};
ghost use Rattle.vb_blocks.specs.Steps.{Gives};
ghost use Rattle.vb_blocks.specs.Steps as spec;

use crate::procedures::header;
use crate::types::{implements, inherits, type_end};
use crate::wholes::with_member;
use std::alloc::Global;
use vb_blocks::{EventParts, Fault, Frame, Turn, TypeHeader, opens};
use vb_syntax::{
    Boxed, DeclarationLine, Declarator, Item, Items, LocalModifier, Member, MemberForm, Modifier,
    TypeName,
};
use vb_text::Name;

/// An item among the members of a module or a class.
pub fn members_turn(
    alloc: Global,
    kind: Boxed<TypeHeader>,
    members: Items<Member>,
    line: u32,
    item: Item,
) -> Result<Turn, Fault>
    ensures { Gives (λ t. t) result (spec.members_turn kind members line item) }
{
    match item {
        Item::Declaration(modifier, declarators) => {
            local(alloc, kind, members, line, modifier, declarators)
        }
        Item::Declares(declaration) => declares(
            alloc,
            kind,
            members,
            line,
            declaration.into_inner(),
        ),
        Item::End(word) => type_end(alloc, kind, members, line, word),
        other => {
            drop((members, other));
            Err(Fault::Grammar)
        }
    }
}

// Variables or constants without modifiers.
fn local(
    alloc: Global,
    kind: Boxed<TypeHeader>,
    members: Items<Member>,
    line: u32,
    modifier: LocalModifier,
    declarators: Items<Declarator>,
) -> Result<Turn, Fault>
    ensures { Gives (λ t. t) result (spec.members_turn kind members line (Item.Declaration modifier declarators)) }
{
    let modifiers = Items::new(alloc);
    match modifier {
        LocalModifier::Dim => {
            more(
                kind,
                members,
                line,
                modifiers,
                MemberForm::Variables(declarators),
            )
        }
        LocalModifier::Const => {
            more(
                kind,
                members,
                line,
                modifiers,
                MemberForm::Constants(declarators),
            )
        }
        LocalModifier::Static => {
            drop(members);
            Err(Fault::Grammar)
        }
    }
}

fn declares(
    alloc: Global,
    kind: Boxed<TypeHeader>,
    members: Items<Member>,
    line: u32,
    declaration: DeclarationLine,
) -> Result<Turn, Fault>
    ensures { Gives (λ t. t) result (spec.members_turn kind members line (Item.Declares declaration)) }
{
    match declaration {
        DeclarationLine::Variables(modifiers, declarators) => {
            more(
                kind,
                members,
                line,
                modifiers,
                MemberForm::Variables(declarators),
            )
        }
        DeclarationLine::Constants(modifiers, declarators) => {
            more(
                kind,
                members,
                line,
                modifiers,
                MemberForm::Constants(declarators),
            )
        }
        DeclarationLine::Property(modifiers, property) => {
            more(
                kind,
                members,
                line,
                modifiers,
                MemberForm::Property(property, None),
            )
        }
        DeclarationLine::Event {
            modifiers,
            name,
            handler,
            implements,
        } => {
            let form = MemberForm::Event {
                name,
                handler,
                implements,
            };
            more(kind, members, line, modifiers, form)
        }
        DeclarationLine::CustomEvent(modifiers, name, delegate) => {
            let event = event_frame(alloc, event_parts(line, modifiers, name, delegate));
            opens(Frame::Members(kind, members), event)
        }
        DeclarationLine::Inherits(types) => inherits(alloc, kind, members, line, types),
        DeclarationLine::Implements(types) => implements(alloc, kind, members, line, types),
        other => header(alloc, kind, members, line, other),
    }
}

/// One more member.
pub fn more(
    kind: Boxed<TypeHeader>,
    members: Items<Member>,
    line: u32,
    modifiers: Items<Modifier>,
    form: MemberForm,
) -> Result<Turn, Fault>
    ensures { Gives (λ t. t) result (spec.more_members kind members line modifiers form) }
{
    let member = Member {
        line,
        modifiers,
        form,
    };
    Ok(Turn::Goes(with_member(kind, members, member)?))
}

// An event before its accessors.
fn event_parts(line: u32, modifiers: Items<Modifier>, name: Name, delegate: TypeName) -> EventParts
    ensures { result ≡ spec.event_parts line modifiers name delegate }
{
    EventParts {
        line,
        modifiers,
        name,
        delegate,
        add_handler: None,
        remove_handler: None,
        raise_event: None,
    }
}

fn event_frame(alloc: Global, parts: EventParts) -> Result<Frame, Fault>
    ensures { Gives (λ f. f) result (Some (Frame.Event parts)) }
{
    let parts = Boxed::new(alloc, parts)?;
    Ok(Frame::Event(parts))
}
