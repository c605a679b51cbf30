// Statements that go elsewhere.
ghost use Rattle.std.specs.Prelude.{◌≡◌};
ghost use Rattle.vb_parse_stmt.specs.declared.front.Front.TheVariants as front;
ghost use Rattle.vb_parse_stmt.specs.JumpLines as spec;
ghost use Rattle.vb_parse_decl.specs.Answers.{Tells};
ghost use Rattle.vb_parse_stmt.specs.Reading.{front_of, IsItemFrom};

use std::alloc::Global;
use vb_parse_expr::{ParseErr, refusal};
use vb_syntax::{
    Context, ContinueKind, ExitKind, Item, Keyword, Line, OnErrorAction, ResumePlace, Symbol, Token,
};
use vb_text::Name;

pub fn go_to(alloc: Global, context: &Context, line: &Line) -> Result<Item, ParseErr>
    requires { front_of context.now line.now.tokens ≡ front.GoTo }
    ensures { Tells (IsItemFrom context.now front.GoTo) line.now line.now.tokens result }
{
    match label(line) {
        Some(label) => Ok(Item::GoTo(label)),
        None => Err(ParseErr::Refused(refusal(line))),
    }
}

pub fn exit(alloc: Global, context: &Context, line: &Line) -> Result<Item, ParseErr>
    requires { front_of context.now line.now.tokens ≡ front.Exit }
    ensures { Tells (IsItemFrom context.now front.Exit) line.now line.now.tokens result }
{
    match exit_kind(line) {
        Some(kind) => Ok(Item::Exit(kind)),
        None => Err(ParseErr::Refused(refusal(line))),
    }
}

pub fn continue_loop(alloc: Global, context: &Context, line: &Line) -> Result<Item, ParseErr>
    requires { front_of context.now line.now.tokens ≡ front.Continue }
    ensures { Tells (IsItemFrom context.now front.Continue) line.now line.now.tokens result }
{
    match continue_kind(line) {
        Some(kind) => Ok(Item::Continue(kind)),
        None => Err(ParseErr::Refused(refusal(line))),
    }
}

pub fn on_error(alloc: Global, context: &Context, line: &Line) -> Result<Item, ParseErr>
    requires { front_of context.now line.now.tokens ≡ front.On }
    ensures { Tells (IsItemFrom context.now front.On) line.now line.now.tokens result }
{
    match action(line) {
        Some(action) => Ok(Item::OnError(action)),
        None => Err(ParseErr::Refused(refusal(line))),
    }
}

pub fn resume(alloc: Global, context: &Context, line: &Line) -> Result<Item, ParseErr>
    requires { front_of context.now line.now.tokens ≡ front.Resume }
    ensures { Tells (IsItemFrom context.now front.Resume) line.now line.now.tokens result }
{
    match place(line) {
        Some(place) => Ok(Item::Resume(place)),
        None => Err(ParseErr::Refused(refusal(line))),
    }
}

// The label that is all behind the first token.
fn label(line: &Line) -> Option<Name>
    ensures { result ≡ spec.label_of line.now.tokens }
{
    match line.tokens.as_slice() {
        [_, Token::Name(name) | Token::EscapedName(name)] => Some(*name),
        _ => None,
    }
}

// What the word behind `Exit` leaves.
fn exit_kind(line: &Line) -> Option<ExitKind>
    ensures { result ≡ spec.exit_of line.now.tokens }
{
    match line.tokens.as_slice() {
        [_, Token::Keyword(word)] => exit_of_word(*word),
        _ => None,
    }
}

fn exit_of_word(word: Keyword) -> Option<ExitKind>
    ensures { result ≡ spec.exit_of_word word }
{
    match word {
        Keyword::Sub => Some(ExitKind::Sub),
        Keyword::Function => Some(ExitKind::Function),
        Keyword::Property => Some(ExitKind::Property),
        Keyword::Do => Some(ExitKind::Do),
        Keyword::For => Some(ExitKind::For),
        Keyword::While => Some(ExitKind::While),
        Keyword::Select => Some(ExitKind::Select),
        Keyword::Try => Some(ExitKind::Try),
        _ => None,
    }
}

// The loop that the word behind `Continue` goes on with.
fn continue_kind(line: &Line) -> Option<ContinueKind>
    ensures { result ≡ spec.continue_of line.now.tokens }
{
    match line.tokens.as_slice() {
        [_, Token::Keyword(word)] => continue_of_word(*word),
        _ => None,
    }
}

fn continue_of_word(word: Keyword) -> Option<ContinueKind>
    ensures { result ≡ spec.continue_of_word word }
{
    match word {
        Keyword::Do => Some(ContinueKind::Do),
        Keyword::For => Some(ContinueKind::For),
        Keyword::While => Some(ContinueKind::While),
        _ => None,
    }
}

// What stands behind `On`.
fn action(line: &Line) -> Option<OnErrorAction>
    ensures { result ≡ spec.action_of line.now.tokens }
{
    match line.tokens.as_slice() {
        [
            _,
            Token::Keyword(Keyword::Error),
            Token::Keyword(Keyword::GoTo),
            Token::Name(label) | Token::EscapedName(label),
        ] => Some(OnErrorAction::GoTo(*label)),
        [
            _,
            Token::Keyword(Keyword::Error),
            Token::Keyword(Keyword::GoTo),
            Token::Integer(literal),
        ] if literal.value == 0 && literal.is_digit => Some(OnErrorAction::GoToZero),
        [
            _,
            Token::Keyword(Keyword::Error),
            Token::Keyword(Keyword::GoTo),
            Token::Symbol(Symbol::Minus),
            Token::Integer(literal),
        ] if literal.value == 1 && literal.is_digit => Some(OnErrorAction::GoToMinusOne),
        [
            _,
            Token::Keyword(Keyword::Error),
            Token::Keyword(Keyword::Resume),
            Token::Keyword(Keyword::Next),
        ] => Some(OnErrorAction::ResumeNext),
        _ => None,
    }
}

// Where a `Resume` goes.
fn place(line: &Line) -> Option<ResumePlace>
    ensures { result ≡ spec.place_of line.now.tokens }
{
    match line.tokens.as_slice() {
        [_] => Some(ResumePlace::Same),
        [_, Token::Keyword(Keyword::Next)] => Some(ResumePlace::Next),
        [_, Token::Name(label) | Token::EscapedName(label)] => Some(ResumePlace::Label(*label)),
        _ => None,
    }
}
