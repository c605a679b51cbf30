// The tokens of pieces.
ghost use Rattle.std.specs.Prelude.{◌≡◌, ◌≤◌, ◌-◌, ◌++◌, List, length, take, drop, IfOk, IfSome, OnOk, Some, is_some, encode_utf8_all};
ghost use Rattle.std.specs.String.{string_bytes};
ghost use Rattle.vb_text.specs.Names.{IsNameOf, Extends, with_name};
ghost use Rattle.vb_text.specs.Units.{most_units};
ghost use Rattle.vb_lexer.specs.Characters.{readable};
ghost use Rattle.vb_lexer.specs.Tokens as tokens;
ghost use Rattle.vb_lexer.specs.Lines.{IsToken, is_token, with_piece};
ghost use Rattle.vb_lexer.specs.Reader.{part};

use crate::characters::{behind, is_ascii};
use crate::literals::units_of;
use crate::piece::Piece;
use std::alloc::{AllocError, Global};
use vb_syntax::Token;
use vb_text::{Name, NameTable, Text};

// The characters between the first and the last.
fn inside(characters: &[Option<char>]) -> &[Option<char>]
    ensures { result.now ≡ take (length characters.now - 2) (drop 1 characters.now) }
{
    let rest = behind(characters, 1);
    let (inside, _) = rest.split_at(rest.len().saturating_sub(1));
    inside
}

// Appends the UTF-8 of characters.
fn spell(word: &mut String, characters: &[Option<char>]) -> Result<(), AllocError>
    ensures { OnOk result (string_bytes word.new ≡ string_bytes word.old ++ encode_utf8_all (readable characters.now)) }
{
    for character in characters {
        if let Some(c) = *character {
            word.push(c)?;
        }
    }
    Ok(())
}

// The name of characters. `word` is room for its spelling.
fn name_of(
    names: &mut NameTable,
    word: &mut String,
    characters: &[Option<char>],
) -> Result<Name, AllocError>
    ensures name { IfOk result (λ n. IsNameOf names.new (encode_utf8_all (readable characters.now)) n) }
    ensures names { Extends names.new names.old }
    ensures grown { OnOk result (names.new ≡ with_name names.old (encode_utf8_all (readable characters.now))) }
{
    word.clear();
    spell(word, characters)?;
    names.intern(word)
}

// The text of a string literal's content.
fn text_of(alloc: Global, content: &[Option<char>]) -> Result<Text, AllocError>
    requires { length (tokens.units_of content.now) ≤ most_units }
    ensures { IfOk result (λ t. t ≡ tokens.units_of content.now) }
{
    let units = units_of(alloc, content)?;
    match Text::new(units) {
        Ok(text) => Ok(text),
        Err(_) => unreachable!(),
    }
}

/// The token of a piece with its characters, if it is a token. `word` is room for the spelling of names.
///
/// A name that has a character outside ASCII is an escaped one: the words of the grammar are matched by their ASCII case alone, while
/// a table of names also takes `ſtrict` for `strict`.
pub fn token_of(
    alloc: Global,
    names: &mut NameTable,
    word: &mut String,
    piece: Piece,
    characters: &[Option<char>],
) -> Result<Option<Token>, AllocError>
    requires { piece ≡ Piece.Text → length (tokens.units_of (take (length characters.now - 2) (drop 1 characters.now))) ≤ most_units }
    ensures token { IfOk result (λ found. IfSome found (λ t. IsToken names.new (part piece characters.now) t)) }
    ensures some { IfOk result (λ found. is_some found ≡ is_token piece) }
    ensures names { Extends names.new names.old }
    ensures grown { OnOk result (names.new ≡ with_piece names.old piece characters.now) }
{
    let token = match piece {
        Piece::Name if is_ascii(characters) => Token::Name(name_of(names, word, characters)?),
        Piece::Name => Token::EscapedName(name_of(names, word, characters)?),
        Piece::EscapedName => Token::EscapedName(name_of(names, word, inside(characters))?),
        Piece::Keyword(keyword) => Token::Keyword(keyword),
        Piece::Integer(literal) => Token::Integer(literal),
        Piece::Text => Token::Text(text_of(alloc, inside(characters))?),
        Piece::Char(unit) => Token::Char(unit),
        Piece::Symbol(symbol) => Token::Symbol(symbol),
        _ => return Ok(None),
    };
    Ok(Some(token))
}
