// The end of an accessor.
ghost use Rattle.std.specs.Prelude.{◌≡◌};
ghost use Rattle.vb_blocks.specs.Trees.{accessor_word as word_of_accessor};
ghost use Rattle.vb_blocks.specs.Steps.{Gives};
ghost use Rattle.vb_blocks.specs.Steps as spec;

use crate::fault::Fault;
use crate::frame::{Turn, Whole};
use crate::scope::AccessorHeader;
use crate::turns::given;
use crate::words::{is_word, word_of};
use vb_syntax::{
    Block, BlockWord, EventAccessor, EventAccessorKind, GetAccessor, Item, SetAccessor,
};

/// An item behind the statements of an accessor.
pub fn accessor_turn(header: AccessorHeader, body: Block, item: Item) -> Result<Turn, Fault>
    ensures { Gives (λ t. t) result (spec.accessor_turn header body item) }
{
    accessor_end(header, body, word_of(item))
}

fn accessor_end(header: AccessorHeader, body: Block, word: Option<BlockWord>) -> Result<Turn, Fault>
    ensures { Gives (λ t. t) result (spec.accessor_end header body word) }
{
    match header {
        AccessorHeader::Get(line, access) => {
            let accessor = GetAccessor { line, access, body };
            given(
                is_word(BlockWord::Get, word),
                Turn::Closes(Whole::Get(accessor)),
            )
        }
        AccessorHeader::Set(line, access, parameters) => {
            let accessor = SetAccessor {
                line,
                access,
                parameters,
                body,
            };
            given(
                is_word(BlockWord::Set, word),
                Turn::Closes(Whole::Set(accessor)),
            )
        }
        AccessorHeader::Event(line, kind, parameters) => {
            let accessor = EventAccessor {
                line,
                parameters,
                body,
            };
            given(
                is_word(accessor_word(kind), word),
                Turn::Closes(Whole::Event(kind, accessor)),
            )
        }
    }
}

fn accessor_word(kind: EventAccessorKind) -> BlockWord
    ensures { result ≡ word_of_accessor kind }
{
    match kind {
        EventAccessorKind::AddHandler => BlockWord::AddHandler,
        EventAccessorKind::RemoveHandler => BlockWord::RemoveHandler,
        EventAccessorKind::RaiseEvent => BlockWord::RaiseEvent,
    }
}
