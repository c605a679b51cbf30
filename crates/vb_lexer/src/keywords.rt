// The reserved words (Visual Basic Language Specification 11.0, 2.3).
ghost use Rattle.std.specs.Prelude.{◌≡◌, true, bytes_eq, slice_index};
ghost use Rattle.vb_lexer.specs.Characters.{is_readable};
ghost use Rattle.vb_lexer.specs.Tables.{keywords};
ghost use Rattle.vb_lexer.specs.Tokens.{keyword_in, lowered};

use vb_syntax::Keyword;

const WORDS_A: [Keyword; 6] = [
    Keyword::AddHandler,
    Keyword::AddressOf,
    Keyword::Alias,
    Keyword::And,
    Keyword::AndAlso,
    Keyword::As,
];

const WORDS_B: [Keyword; 4] = [
    Keyword::Boolean,
    Keyword::ByRef,
    Keyword::Byte,
    Keyword::ByVal,
];

const WORDS_C: [Keyword; 24] = [
    Keyword::Call,
    Keyword::Case,
    Keyword::Catch,
    Keyword::CBool,
    Keyword::CByte,
    Keyword::CChar,
    Keyword::CDate,
    Keyword::CDbl,
    Keyword::CDec,
    Keyword::Char,
    Keyword::CInt,
    Keyword::Class,
    Keyword::CLng,
    Keyword::CObj,
    Keyword::Const,
    Keyword::Continue,
    Keyword::CSByte,
    Keyword::CShort,
    Keyword::CSng,
    Keyword::CStr,
    Keyword::CType,
    Keyword::CUInt,
    Keyword::CULng,
    Keyword::CUShort,
];

const WORDS_D: [Keyword; 9] = [
    Keyword::Date,
    Keyword::Decimal,
    Keyword::Declare,
    Keyword::Default,
    Keyword::Delegate,
    Keyword::Dim,
    Keyword::DirectCast,
    Keyword::Do,
    Keyword::Double,
];

const WORDS_E: [Keyword; 10] = [
    Keyword::Each,
    Keyword::Else,
    Keyword::ElseIf,
    Keyword::End,
    Keyword::EndIf,
    Keyword::Enum,
    Keyword::Erase,
    Keyword::Error,
    Keyword::Event,
    Keyword::Exit,
];

const WORDS_F: [Keyword; 5] = [
    Keyword::False,
    Keyword::Finally,
    Keyword::For,
    Keyword::Friend,
    Keyword::Function,
];

const WORDS_G: [Keyword; 6] = [
    Keyword::Get,
    Keyword::GetType,
    Keyword::GetXmlNamespace,
    Keyword::Global,
    Keyword::GoSub,
    Keyword::GoTo,
];

const WORDS_H: [Keyword; 1] = [Keyword::Handles];

const WORDS_I: [Keyword; 9] = [
    Keyword::If,
    Keyword::Implements,
    Keyword::Imports,
    Keyword::In,
    Keyword::Inherits,
    Keyword::Integer,
    Keyword::Interface,
    Keyword::Is,
    Keyword::IsNot,
];

const WORDS_L: [Keyword; 5] = [
    Keyword::Let,
    Keyword::Lib,
    Keyword::Like,
    Keyword::Long,
    Keyword::Loop,
];

const WORDS_M: [Keyword; 7] = [
    Keyword::Me,
    Keyword::Mod,
    Keyword::Module,
    Keyword::MustInherit,
    Keyword::MustOverride,
    Keyword::MyBase,
    Keyword::MyClass,
];

const WORDS_N: [Keyword; 8] = [
    Keyword::Namespace,
    Keyword::Narrowing,
    Keyword::New,
    Keyword::Next,
    Keyword::Not,
    Keyword::Nothing,
    Keyword::NotInheritable,
    Keyword::NotOverridable,
];

const WORDS_O: [Keyword; 11] = [
    Keyword::Object,
    Keyword::Of,
    Keyword::On,
    Keyword::Operator,
    Keyword::Option,
    Keyword::Optional,
    Keyword::Or,
    Keyword::OrElse,
    Keyword::Overloads,
    Keyword::Overridable,
    Keyword::Overrides,
];

const WORDS_P: [Keyword; 6] = [
    Keyword::ParamArray,
    Keyword::Partial,
    Keyword::Private,
    Keyword::Property,
    Keyword::Protected,
    Keyword::Public,
];

const WORDS_R: [Keyword; 6] = [
    Keyword::RaiseEvent,
    Keyword::ReadOnly,
    Keyword::ReDim,
    Keyword::RemoveHandler,
    Keyword::Resume,
    Keyword::Return,
];

const WORDS_S: [Keyword; 14] = [
    Keyword::SByte,
    Keyword::Select,
    Keyword::Set,
    Keyword::Shadows,
    Keyword::Shared,
    Keyword::Short,
    Keyword::Single,
    Keyword::Static,
    Keyword::Step,
    Keyword::Stop,
    Keyword::String,
    Keyword::Structure,
    Keyword::Sub,
    Keyword::SyncLock,
];

const WORDS_T: [Keyword; 7] = [
    Keyword::Then,
    Keyword::Throw,
    Keyword::To,
    Keyword::True,
    Keyword::Try,
    Keyword::TryCast,
    Keyword::TypeOf,
];

const WORDS_U: [Keyword; 4] = [
    Keyword::UInteger,
    Keyword::ULong,
    Keyword::UShort,
    Keyword::Using,
];

const WORDS_V: [Keyword; 1] = [Keyword::Variant];

const WORDS_W: [Keyword; 7] = [
    Keyword::Wend,
    Keyword::When,
    Keyword::While,
    Keyword::Widening,
    Keyword::With,
    Keyword::WithEvents,
    Keyword::WriteOnly,
];

const WORDS_X: [Keyword; 1] = [Keyword::Xor];

/// The reserved word that this is, in any ASCII case.
pub fn keyword_of(word: &[Option<char>]) -> Option<Keyword>
    requires { is_readable word.now ≡ true }
    ensures { result ≡ keyword_in keywords (lowered word.now) }
{
    match first_letter(word) {
        'a' => word_among(word, &WORDS_A),
        'b' => word_among(word, &WORDS_B),
        'c' => word_among(word, &WORDS_C),
        'd' => word_among(word, &WORDS_D),
        'e' => word_among(word, &WORDS_E),
        'f' => word_among(word, &WORDS_F),
        'g' => word_among(word, &WORDS_G),
        'h' => word_among(word, &WORDS_H),
        'i' => word_among(word, &WORDS_I),
        'l' => word_among(word, &WORDS_L),
        'm' => word_among(word, &WORDS_M),
        'n' => word_among(word, &WORDS_N),
        'o' => word_among(word, &WORDS_O),
        'p' => word_among(word, &WORDS_P),
        'r' => word_among(word, &WORDS_R),
        's' => word_among(word, &WORDS_S),
        't' => word_among(word, &WORDS_T),
        'u' => word_among(word, &WORDS_U),
        'v' => word_among(word, &WORDS_V),
        'w' => word_among(word, &WORDS_W),
        'x' => word_among(word, &WORDS_X),
        _ => None,
    }
}

// The word among these, if it is one of them.
fn word_among(word: &[Option<char>], among: &[Keyword]) -> Option<Keyword>
    requires { is_readable word.now ≡ true }
    ensures { result ≡ keyword_in among.now (lowered word.now) }
{
    for keyword in among {
        if is_word(word, keyword.text().as_bytes()) {
            return Some(*keyword);
        }
    }
    None
}

// The first character in ASCII lower case, and 0 of none.
fn first_letter(word: &[Option<char>]) -> char
    requires { is_readable word.now ≡ true }
    ensures { result ≡ slice_index (lowered word.now) 0 }
{
    match word {
        [Some(first), ..] => first.to_ascii_lowercase(),
        _ => '\0',
    }
}

// Whether the word is the text, which is in lower case.
pub fn is_word(word: &[Option<char>], text: &[u8]) -> bool
    requires { is_readable word.now ≡ true }
    ensures { result ≡ bytes_eq (lowered word.now) text.now }
{
    if word.len() != text.len() {
        return false;
    }
    for i in 0..word.len() {
        let Some(c) = word[i] else {
            return false;
        };
        if c.to_ascii_lowercase() as u32 != text[i] as u32 {
            return false;
        }
    }
    true
}
