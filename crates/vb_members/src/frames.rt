// An item in what has been begun.
ghost use Rattle.vb_blocks.specs.Steps.{Gives};
ghost use Rattle.vb_blocks.specs.Steps as spec;

use crate::events::event_turn;
use crate::files::file_turn;
use crate::interfaces::interface_turn;
use crate::members::members_turn;
use crate::properties::property_turn;
use std::alloc::Global;
use vb_blocks::{Fault, Frame, Turn, body_turn, select_first};
use vb_syntax::Item;

/// An item in a frame, by itself on its line.
pub fn frame_turn(alloc: Global, frame: Frame, line: u32, item: Item) -> Result<Turn, Fault>
    ensures { Gives (λ t. t) result (spec.frame_turn frame line item) }
{
    match frame {
        Frame::Body(scope, body) => body_turn(alloc, scope, body, line, item),
        Frame::Select(start, value) => select_first(alloc, start, value, line, item),
        Frame::Property(parts) => property_turn(alloc, parts, line, item),
        Frame::Event(parts) => event_turn(alloc, parts, line, item),
        Frame::Members(kind, members) => members_turn(alloc, kind, members, line, item),
        Frame::Interface(parts) => interface_turn(alloc, parts, line, item),
        Frame::File(parts) => file_turn(alloc, parts, line, item),
    }
}
