// Separators and operators.
ghost use Rattle.std.specs.Prelude.{◌≡◌};
ghost use Rattle.vb_syntax.specs.Texts.{symbol_text};

/// A separator or an operator (Visual Basic Language Specification 11.0, 2.5 and 2.6). The operators that are words, such
/// as `Mod`, are reserved words.
#[derive(Clone, Copy, Debug, PartialEq, Eq)]
pub enum Symbol {
    /// `(`
    OpenParenthesis,
    /// `)`
    CloseParenthesis,
    /// `{`
    OpenBrace,
    /// `}`
    CloseBrace,
    /// `,`
    Comma,
    /// `.`
    Dot,
    /// `:`
    Colon,
    /// `=`
    Equal,
    /// `<>`
    NotEqual,
    /// `<`
    Less,
    /// `<=`
    LessOrEqual,
    /// `>`
    Greater,
    /// `>=`
    GreaterOrEqual,
    /// `+`
    Plus,
    /// `-`
    Minus,
    /// `*`
    Times,
    /// `\`
    Backslash,
    /// `&`
    Ampersand,
    /// `<<`
    ShiftLeft,
    /// `>>`
    ShiftRight,
    /// `+=`
    PlusEqual,
    /// `-=`
    MinusEqual,
    /// `*=`
    TimesEqual,
    /// `\=`
    BackslashEqual,
    /// `&=`
    AmpersandEqual,
    /// `<<=`
    ShiftLeftEqual,
    /// `>>=`
    ShiftRightEqual,
}

impl Symbol {
    /// The text of the symbol, which is ASCII. It takes no memory.
    pub fn text(self) -> &'static str
        ensures { result.now ≡ symbol_text self }
    {
        match self {
            Symbol::OpenParenthesis => "(",
            Symbol::CloseParenthesis => ")",
            Symbol::OpenBrace => "{",
            Symbol::CloseBrace => "}",
            Symbol::Comma => ",",
            Symbol::Dot => ".",
            Symbol::Colon => ":",
            Symbol::Equal => "=",
            Symbol::NotEqual => "<>",
            Symbol::Less => "<",
            Symbol::LessOrEqual => "<=",
            Symbol::Greater => ">",
            Symbol::GreaterOrEqual => ">=",
            Symbol::Plus => "+",
            Symbol::Minus => "-",
            Symbol::Times => "*",
            Symbol::Backslash => "\\",
            Symbol::Ampersand => "&",
            Symbol::ShiftLeft => "<<",
            Symbol::ShiftRight => ">>",
            Symbol::PlusEqual => "+=",
            Symbol::MinusEqual => "-=",
            Symbol::TimesEqual => "*=",
            Symbol::BackslashEqual => "\\=",
            Symbol::AmpersandEqual => "&=",
            Symbol::ShiftLeftEqual => "<<=",
            Symbol::ShiftRightEqual => ">>=",
        }
    }
}
