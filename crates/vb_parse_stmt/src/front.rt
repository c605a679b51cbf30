// With what a line begins.
ghost use Rattle.std.specs.Prelude.{◌≡◌};
ghost use Rattle.vb_parse_stmt.specs.Reading as spec;

use vb_syntax::{Context, Keyword, Line, Token};

/// The word with which a line begins, of those that items begin with; or none of these.
#[derive(Clone, Copy, Debug, PartialEq, Eq)]
pub enum Front {
    Option,
    Imports,
    End,
    Dim,
    Const,
    Static,
    ReDim,
    Call,
    Throw,
    Yield,
    Return,
    GoTo,
    Exit,
    Continue,
    On,
    Resume,
    AddHandler,
    RemoveHandler,
    RaiseEvent,
    If,
    ElseIf,
    Else,
    While,
    Do,
    Loop,
    For,
    Next,
    Select,
    Case,
    Try,
    Catch,
    Finally,
    SyncLock,
    With,
    Using,
    Other,
}

// The word with which the line begins.
pub fn front_of(context: &Context, line: &Line) -> Front
    ensures { result ≡ spec.front_of context.now line.now.tokens }
{
    match line.tokens.as_slice() {
        [Token::Keyword(word), ..] => word_front(*word),
        [Token::Name(name), ..] if context.in_iterator && *name == context.words.yields => {
            Front::Yield
        }
        _ => Front::Other,
    }
}

fn word_front(word: Keyword) -> Front
    ensures { result ≡ spec.word_front word }
{
    match word {
        Keyword::Option => Front::Option,
        Keyword::Imports => Front::Imports,
        Keyword::End => Front::End,
        Keyword::Dim => Front::Dim,
        Keyword::Const => Front::Const,
        Keyword::Static => Front::Static,
        Keyword::ReDim => Front::ReDim,
        Keyword::Call => Front::Call,
        Keyword::Throw => Front::Throw,
        Keyword::Return => Front::Return,
        Keyword::GoTo => Front::GoTo,
        Keyword::Exit => Front::Exit,
        Keyword::Continue => Front::Continue,
        Keyword::On => Front::On,
        Keyword::Resume => Front::Resume,
        Keyword::AddHandler => Front::AddHandler,
        Keyword::RemoveHandler => Front::RemoveHandler,
        Keyword::RaiseEvent => Front::RaiseEvent,
        Keyword::If => Front::If,
        Keyword::ElseIf => Front::ElseIf,
        Keyword::Else => Front::Else,
        Keyword::While => Front::While,
        Keyword::Do => Front::Do,
        Keyword::Loop => Front::Loop,
        Keyword::For => Front::For,
        Keyword::Next => Front::Next,
        Keyword::Select => Front::Select,
        Keyword::Case => Front::Case,
        Keyword::Try => Front::Try,
        Keyword::Catch => Front::Catch,
        Keyword::Finally => Front::Finally,
        Keyword::SyncLock => Front::SyncLock,
        Keyword::With => Front::With,
        Keyword::Using => Front::Using,
        _ => Front::Other,
    }
}
