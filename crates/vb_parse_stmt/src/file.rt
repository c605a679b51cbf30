// The front of a file, headers and ends.
ghost use Rattle.std.specs.Prelude.{◌≡◌};
ghost use Rattle.vb_parse_stmt.specs.declared.front.Front.TheVariants as front;
ghost use Rattle.vb_parse_stmt.specs.FileReading as spec;
ghost use Rattle.vb_parse_decl.specs.Answers.{Tells};
ghost use Rattle.vb_parse_stmt.specs.Reading.{front_of, IsItemFrom};

use crate::namespaces::namespaces;
use std::alloc::Global;
use vb_parse_expr::{ParseErr, refusal};
use vb_syntax::{
    BlockWord, Context, ContextualWords, Item, Keyword, Line, OptionSetting, OptionSwitch, Token,
};
use vb_text::Name;

pub fn option(alloc: Global, context: &Context, line: &Line) -> Result<Item, ParseErr>
    requires { front_of context.now line.now.tokens ≡ front.Option }
    ensures { Tells (IsItemFrom context.now front.Option) line.now line.now.tokens result }
{
    match option_setting(&context.words, line) {
        Some(setting) => Ok(Item::Option(setting)),
        None => Err(ParseErr::Refused(refusal(line))),
    }
}

pub fn imports(alloc: Global, context: &Context, line: &Line) -> Result<Item, ParseErr>
    requires { front_of context.now line.now.tokens ≡ front.Imports }
    ensures { Tells (IsItemFrom context.now front.Imports) line.now line.now.tokens result }
{
    let found = namespaces(alloc, line)?;
    Ok(Item::Imports(found))
}

pub fn end(alloc: Global, context: &Context, line: &Line) -> Result<Item, ParseErr>
    requires { front_of context.now line.now.tokens ≡ front.End }
    ensures { Tells (IsItemFrom context.now front.End) line.now line.now.tokens result }
{
    match ended_block(line) {
        Some(block) => Ok(Item::End(block)),
        None => Err(ParseErr::Refused(refusal(line))),
    }
}

// What all behind the first token sets.
fn option_setting(words: &ContextualWords, line: &Line) -> Option<OptionSetting>
    ensures { result ≡ spec.option_setting words.now line.now.tokens }
{
    match line.tokens.as_slice() {
        [_, Token::Name(name)] => switched(words, *name, OptionSwitch::On),
        [_, Token::Name(name), Token::Keyword(Keyword::On)] => {
            switched(words, *name, OptionSwitch::On)
        }
        [_, Token::Name(name), Token::Name(other)] => two_names(words, *name, *other),
        _ => None,
    }
}

// The option that the name switches.
fn switched(words: &ContextualWords, name: Name, on: OptionSwitch) -> Option<OptionSetting>
    ensures { result ≡ spec.switched words.now name on }
{
    if name == words.strict {
        Some(OptionSetting::Strict(on))
    } else if name == words.explicit {
        Some(OptionSetting::Explicit(on))
    } else if name == words.infer {
        Some(OptionSetting::Infer(on))
    } else {
        None
    }
}

// What two names set: how texts are compared, or that an option doesn't hold.
fn two_names(words: &ContextualWords, name: Name, other: Name) -> Option<OptionSetting>
    ensures { result ≡ spec.two_names words.now name other }
{
    match compared(words, name, other) {
        Some(setting) => Some(setting),
        None => if other == words.off {
            switched(words, name, OptionSwitch::Off)
        } else {
            None
        }
    }
}

fn compared(words: &ContextualWords, name: Name, other: Name) -> Option<OptionSetting>
    ensures { result ≡ spec.compared words.now name other }
{
    if name != words.compare {
        None
    } else if other == words.binary {
        Some(OptionSetting::CompareBinary)
    } else if other == words.text {
        Some(OptionSetting::CompareText)
    } else {
        None
    }
}

// The block whose word is all behind the first token.
fn ended_block(line: &Line) -> Option<BlockWord>
    ensures { result ≡ spec.ended_block line.now.tokens }
{
    match line.tokens.as_slice() {
        [_, Token::Keyword(word)] => word_block(*word),
        _ => None,
    }
}

// The block that a word ends.
fn word_block(word: Keyword) -> Option<BlockWord>
    ensures { result ≡ spec.word_block word }
{
    match word {
        Keyword::Module => Some(BlockWord::Module),
        Keyword::Class => Some(BlockWord::Class),
        Keyword::Interface => Some(BlockWord::Interface),
        Keyword::Sub => Some(BlockWord::Sub),
        Keyword::Function => Some(BlockWord::Function),
        Keyword::Property => Some(BlockWord::Property),
        Keyword::Get => Some(BlockWord::Get),
        Keyword::Set => Some(BlockWord::Set),
        Keyword::Event => Some(BlockWord::Event),
        Keyword::AddHandler => Some(BlockWord::AddHandler),
        Keyword::RemoveHandler => Some(BlockWord::RemoveHandler),
        Keyword::RaiseEvent => Some(BlockWord::RaiseEvent),
        Keyword::If => Some(BlockWord::If),
        Keyword::Select => Some(BlockWord::Select),
        Keyword::SyncLock => Some(BlockWord::SyncLock),
        Keyword::Try => Some(BlockWord::Try),
        Keyword::Using => Some(BlockWord::Using),
        Keyword::While => Some(BlockWord::While),
        Keyword::With => Some(BlockWord::With),
        _ => None,
    }
}
