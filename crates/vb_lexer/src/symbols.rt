// Separators and operators (Visual Basic Language Specification 11.0, 2.5 and 2.6).
ghost use Rattle.std.specs.Prelude.{◌≡◌, ◌≤◌, ℕ, true, if◌then◌else◌, List, ◌∷◌, length, codes, Some};
ghost use Rattle.vb_syntax.specs.Texts.{symbol_text};
ghost use Rattle.vb_syntax.specs.declared.symbol.Symbol.{Symbol};
ghost use Rattle.vb_lexer.specs.Characters.{Character};
ghost use Rattle.vb_lexer.specs.Tables.{symbols};
ghost use Rattle.vb_lexer.specs.Tokens.{starts, symbol_in};

use vb_syntax::Symbol;

/// A law for callers' proofs: of the symbols that stand at a place the longest is taken.
pub fn longest_symbol()
    ensures { (text : List Character) (s o : Symbol) → symbol_in symbols text ≡ Some s → starts (symbol_text o) text ≡ true → length (symbol_text o) ≤ length (symbol_text s) }
{}

/// How many characters the symbol has.
pub fn symbol_len(symbol: Symbol) -> usize
    ensures { result ≡ length (symbol_text symbol) }
{
    symbol.text().len()
}

/// The longest symbol at the front.
pub fn symbol_of(text: &[Option<char>]) -> Option<Symbol>
    ensures { result ≡ symbol_in symbols text.now }
{
    match text {
        [Some(first), rest @ ..] => match *first {
            '(' => Some(Symbol::OpenParenthesis),
            ')' => Some(Symbol::CloseParenthesis),
            '{' => Some(Symbol::OpenBrace),
            '}' => Some(Symbol::CloseBrace),
            ',' => Some(Symbol::Comma),
            '.' => Some(Symbol::Dot),
            ':' => Some(Symbol::Colon),
            '=' => Some(Symbol::Equal),
            '<' => Some(less(rest)),
            '>' => Some(greater(rest)),
            '+' => Some(or_equal(rest, Symbol::Plus, Symbol::PlusEqual)),
            '-' => Some(or_equal(rest, Symbol::Minus, Symbol::MinusEqual)),
            '*' => Some(or_equal(rest, Symbol::Times, Symbol::TimesEqual)),
            '\\' => Some(or_equal(rest, Symbol::Backslash, Symbol::BackslashEqual)),
            '&' => Some(or_equal(rest, Symbol::Ampersand, Symbol::AmpersandEqual)),
            _ => None,
        },
        _ => None,
    }
}

// The symbol of a `<` before the text.
fn less(text: &[Option<char>]) -> Symbol
    ensures { symbol_in symbols (Some 60 ∷ text.now) ≡ Some result }
{
    match text {
        [Some('<'), Some('='), ..] => Symbol::ShiftLeftEqual,
        [Some('<'), ..] => Symbol::ShiftLeft,
        [Some('>'), ..] => Symbol::NotEqual,
        [Some('='), ..] => Symbol::LessOrEqual,
        _ => Symbol::Less,
    }
}

// The symbol of a `>` before the text.
fn greater(text: &[Option<char>]) -> Symbol
    ensures { symbol_in symbols (Some 62 ∷ text.now) ≡ Some result }
{
    match text {
        [Some('>'), Some('='), ..] => Symbol::ShiftRightEqual,
        [Some('>'), ..] => Symbol::ShiftRight,
        [Some('='), ..] => Symbol::GreaterOrEqual,
        _ => Symbol::Greater,
    }
}

// One symbol, or another one where a `=` stands at the front.
fn or_equal(text: &[Option<char>], symbol: Symbol, with_equal: Symbol) -> Symbol
    ensures { result ≡ if starts (codes "=") text.now then with_equal else symbol }
{
    match text {
        [Some('='), ..] => with_equal,
        _ => symbol,
    }
}
