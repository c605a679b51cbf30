// What a row does to the frames, of which the innermost stands apart and the others wait, the outermost first.
ghost use Rattle.std.specs.Prelude.{◌≡◌, reverse, Some, None};
ghost use Rattle.vb_blocks.specs.Steps.{Gives};
ghost use Rattle.vb_blocks.specs.Steps as spec;

use crate::lines::{line_frame, statement_ends};
use std::alloc::Global;
use vb_blocks::{
    Fault, Frame, LineClause, PropertyParts, Scope, Turn, TypeHeader, Whole, opens, simple,
};
use vb_members::{frame_turn, property_frame, put};
use vb_syntax::{
    Block, Boxed, Item, Items, Joint, Member, MemberForm, Modifier, PropertyAccessors,
    PropertyHeader, Row, Statement, must_override,
};

/// The innermost frame behind a row, by that before it.
pub fn step(alloc: Global, top: Frame, below: &mut Items<Frame>, row: Row) -> Result<Frame, Fault>
    ensures { Gives (λ f. (f, reverse below.new)) result (spec.step top (reverse below.old) row) }
{
    let Row { line, item, behind } = row;
    match item {
        Some(item) => item_step(alloc, top, below, line, item, behind),
        None => {
            drop(top);
            Err(Fault::Grammar)
        }
    }
}

fn item_step(
    alloc: Global,
    top: Frame,
    below: &mut Items<Frame>,
    line: u32,
    item: Item,
    behind: Joint,
) -> Result<Frame, Fault>
    ensures { Gives (λ f. (f, reverse below.new)) result (spec.item_step top (reverse below.old) line behind (Some item)) }
{
    let top = reopened(alloc, top, below, &item)?;
    frame_step(alloc, top, below, line, item, behind)
}

fn frame_step(
    alloc: Global,
    top: Frame,
    below: &mut Items<Frame>,
    line: u32,
    item: Item,
    behind: Joint,
) -> Result<Frame, Fault>
    ensures { Gives (λ f. (f, reverse below.new)) result (spec.frame_step top (reverse below.old) line item behind) }
{
    match top {
        Frame::Body(scope, body) => body_step(alloc, scope, body, below, line, item, behind),
        other => whole_step(alloc, other, below, line, item, behind),
    }
}

fn whole_step(
    alloc: Global,
    top: Frame,
    below: &mut Items<Frame>,
    line: u32,
    item: Item,
    behind: Joint,
) -> Result<Frame, Fault>
    ensures { Gives (λ f. (f, reverse below.new)) result (spec.whole_step behind (spec.frame_turn top line item) (reverse below.old)) }
{
    match behind {
        Joint::End => turned(alloc, frame_turn(alloc, top, line, item)?, below),
        _ => {
            drop((top, item));
            Err(Fault::Grammar)
        }
    }
}

// STATEMENTS

fn body_step(
    alloc: Global,
    scope: Scope,
    body: Block,
    below: &mut Items<Frame>,
    line: u32,
    item: Item,
    behind: Joint,
) -> Result<Frame, Fault>
    ensures { Gives (λ f. (f, reverse below.new)) result (spec.frame_step (Frame.Body scope body) (reverse below.old) line item behind) }
{
    match simple(item) {
        Ok(form) => {
            let mut body = body;
            body.push(Statement { line, form })?;
            statement_ends(alloc, behind, scope, body, below)
        }
        Err(item) => no_statement(alloc, Frame::Body(scope, body), below, line, item, behind),
    }
}

fn no_statement(
    alloc: Global,
    top: Frame,
    below: &mut Items<Frame>,
    line: u32,
    item: Item,
    behind: Joint,
) -> Result<Frame, Fault>
    ensures { Gives (λ f. (f, reverse below.new)) result (spec.no_statement_in top behind (reverse below.old) line item) }
{
    match behind {
        Joint::End => turned(alloc, frame_turn(alloc, top, line, item)?, below),
        Joint::Then => line_if(alloc, top, below, line, item),
        _ => {
            drop((top, item));
            Err(Fault::Grammar)
        }
    }
}

fn line_if(
    alloc: Global,
    top: Frame,
    below: &mut Items<Frame>,
    line: u32,
    item: Item,
) -> Result<Frame, Fault>
    ensures { Gives (λ f. (f, reverse below.new)) result (spec.line_if_in top (reverse below.old) line item) }
{
    match item {
        Item::If(test) => {
            let inner = line_frame(alloc, LineClause::Then(line, test));
            turned(alloc, opens(top, inner)?, below)
        }
        other => {
            drop((top, other));
            Err(Fault::Grammar)
        }
    }
}

// FRAMES

fn turned(alloc: Global, turn: Turn, below: &mut Items<Frame>) -> Result<Frame, Fault>
    ensures { Gives (λ f. (f, reverse below.new)) result (spec.turned (Some turn) (reverse below.old)) }
{
    match turn {
        Turn::Goes(frame) => Ok(frame),
        Turn::Opens(outer, inner) => put_over(outer, inner, below),
        Turn::Closes(whole) => put_below(alloc, whole, below),
    }
}

fn put_over(outer: Frame, inner: Frame, below: &mut Items<Frame>) -> Result<Frame, Fault>
    ensures { Gives (λ f. (f, reverse below.new)) result (spec.turned (Some (Turn.Opens outer inner)) (reverse below.old)) }
{
    below.push(outer)?;
    Ok(inner)
}

fn put_below(alloc: Global, whole: Whole, below: &mut Items<Frame>) -> Result<Frame, Fault>
    ensures { Gives (λ f. (f, reverse below.new)) result (spec.put_below whole (reverse below.old)) }
{
    match below.pop() {
        Some(frame) => put(alloc, whole, frame),
        None => {
            drop(whole);
            Err(Fault::Grammar)
        }
    }
}

// AUTOMATIC PROPERTIES

// Where the item goes on with a property that was taken for an automatic one, the property is begun again.
fn reopened(
    alloc: Global,
    top: Frame,
    below: &mut Items<Frame>,
    item: &Item,
) -> Result<Frame, Fault>
    ensures { Gives (λ f. (f, reverse below.new)) result (spec.reopened item.now top (reverse below.old)) }
{
    if item.goes_on_property() {
        reopened_top(alloc, top, below)
    } else {
        Ok(top)
    }
}

fn reopened_top(alloc: Global, top: Frame, below: &mut Items<Frame>) -> Result<Frame, Fault>
    ensures { Gives (λ f. (f, reverse below.new)) result (spec.reopened_top top (reverse below.old)) }
{
    match top {
        Frame::Members(kind, members) => reopened_last(alloc, kind, members, below),
        other => Ok(other),
    }
}

fn reopened_last(
    alloc: Global,
    kind: Boxed<TypeHeader>,
    members: Items<Member>,
    below: &mut Items<Frame>,
) -> Result<Frame, Fault>
    ensures { Gives (λ f. (f, reverse below.new)) result (spec.reopened_top (Frame.Members kind members) (reverse below.old)) }
{
    let mut members = members;
    let last = last_property(&mut members);
    reopened_as(alloc, Frame::Members(kind, members), last, below)
}

// The last member is taken out, if it is a property without accessors.
fn last_property(members: &mut Items<Member>) -> Option<PropertyParts>
    ensures { (members.new, result) ≡ spec.last_property members.old }
{
    automatic(members.pop()?)
}

fn reopened_as(
    alloc: Global,
    top: Frame,
    property: Option<PropertyParts>,
    below: &mut Items<Frame>,
) -> Result<Frame, Fault>
    ensures { Gives (λ f. (f, reverse below.new)) result (spec.reopened_in top property (reverse below.old)) }
{
    match property {
        Some(parts) => {
            let turn = opens(top, property_frame(alloc, parts))?;
            turned(alloc, turn, below)
        }
        None => {
            drop(top);
            Err(Fault::Grammar)
        }
    }
}

// The property of a member that was taken for an automatic one.
fn automatic(member: Member) -> Option<PropertyParts>
    ensures { result ≡ spec.automatic member }
{
    let Member {
        line,
        modifiers,
        form,
    } = member;
    match form {
        MemberForm::Property(header, accessors) => {
            automatic_property(line, modifiers, header, accessors)
        }
        other => {
            drop(other);
            None
        }
    }
}

fn automatic_property(
    line: u32,
    modifiers: Items<Modifier>,
    header: PropertyHeader,
    accessors: Option<PropertyAccessors>,
) -> Option<PropertyParts>
    ensures { result ≡ spec.automatic_form line modifiers (MemberForm.Property header accessors) }
{
    if must_override(modifiers.as_slice()) || has_accessors(&accessors) {
        None
    } else {
        Some(PropertyParts {
            line,
            modifiers,
            header,
            get: None,
            set: None,
        })
    }
}

fn has_accessors(accessors: &Option<PropertyAccessors>) -> bool
    ensures { result ≡ spec.has_accessors accessors.now }
{
    accessors.is_some()
}
