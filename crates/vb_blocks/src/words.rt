// The word behind `End`.
ghost use Rattle.std.specs.Prelude.{◌≡◌};
ghost use Rattle.vb_blocks.specs.Steps as steps;
ghost use Rattle.vb_blocks.specs.Words as spec;

use vb_syntax::{BlockWord, Item};

/// The word behind `End`, if the item is one.
pub fn word_of(item: Item) -> Option<BlockWord>
    ensures { result ≡ steps.word_of item }
{
    match item {
        Item::End(word) => Some(word),
        other => {
            drop(other);
            None
        }
    }
}

/// Whether the word is this one.
pub fn is_word(wanted: BlockWord, word: Option<BlockWord>) -> bool
    ensures { result ≡ spec.is_word wanted word }
{
    match word {
        Some(word) => number(word) == number(wanted),
        None => false,
    }
}

fn number(word: BlockWord) -> u8
    ensures { result ≡ spec.word_number word }
{
    match word {
        BlockWord::Module => 0,
        BlockWord::Class => 1,
        BlockWord::Interface => 2,
        BlockWord::Sub => 3,
        BlockWord::Function => 4,
        BlockWord::Property => 5,
        BlockWord::Get => 6,
        BlockWord::Set => 7,
        BlockWord::Event => 8,
        BlockWord::AddHandler => 9,
        BlockWord::RemoveHandler => 10,
        BlockWord::RaiseEvent => 11,
        BlockWord::If => 12,
        BlockWord::Select => 13,
        BlockWord::SyncLock => 14,
        BlockWord::Try => 15,
        BlockWord::Using => 16,
        BlockWord::While => 17,
        BlockWord::With => 18,
    }
}
