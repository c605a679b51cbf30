// What is told of names, tokens, logical lines and refusals.

use std::alloc::AllocError;
use vb_diag::Refusal;
use vb_lexer::LexErr;
use vb_parse::ParseErr;
use vb_syntax::{Items, Line, Token};
use vb_text::{Name, NameTable};

// The names in the rows of all readers but the lexer.
const LETTERS: &str = "a b c d e f g h i j m s x y z";

// Appends the first spelling of a name that stands among the words, and `?` where it isn't among them.
pub fn tell_name_among(
    out: &mut String,
    names: &mut NameTable,
    name: Name,
    words: &str,
) -> Result<(), AllocError> {
    for word in words.split_whitespace() {
        let word = word.strip_prefix('[').unwrap_or(word);
        let word = word.strip_suffix(']').unwrap_or(word);
        let found = names.intern(word)?;
        if found == name {
            out.push_str(names.spelling(found))?;
            return Ok(());
        }
    }
    out.push_str("?")
}

// Appends a name that is a letter.
pub fn tell_name(out: &mut String, names: &mut NameTable, name: Name) -> Result<(), AllocError> {
    tell_name_among(out, names, name, LETTERS)
}

// Appends a word, and a name that is a letter.
pub fn tell_named(
    out: &mut String,
    names: &mut NameTable,
    word: &str,
    name: Name,
) -> Result<(), AllocError> {
    out.push_str(word)?;
    tell_name(out, names, name)
}

// Appends names that are letters, with a dot before each.
pub fn tell_parts(
    out: &mut String,
    names: &mut NameTable,
    parts: &Items<Name>,
) -> Result<(), AllocError> {
    for part in parts.as_slice() {
        tell_named(out, names, ".", *part)?;
    }
    Ok(())
}

// Appends a token: `name`, `[name]`, `{Word}`, `1:Integer`, `"text"`, `'x'c` or a symbol.
fn tell_token(
    out: &mut String,
    names: &mut NameTable,
    token: &Token,
    words: &str,
) -> Result<(), AllocError> {
    match token {
        Token::Name(name) => tell_name_among(out, names, *name, words)?,
        Token::EscapedName(name) => {
            out.push_str("[")?;
            tell_name_among(out, names, *name, words)?;
            out.push_str("]")?;
        }
        Token::Keyword(keyword) => write!(out, "{{{keyword:?}}}")?,
        Token::Integer(literal) => {
            let value = literal.value;
            let kind = literal.kind;
            write!(out, "{value}:{kind:?}")?;
        }
        Token::Text(text) => {
            let text = String::from_utf16_lossy(*out.allocator(), text.units())?;
            write!(out, "\"{text}\"")?;
        }
        Token::Char(unit) => {
            let text = String::from_utf16_lossy(*out.allocator(), &[*unit])?;
            write!(out, "'{text}'c")?;
        }
        Token::Symbol(symbol) => out.push_str(symbol.text())?,
    }
    Ok(())
}

// Appends a logical line after those before: `NUMBER: TOKEN TOKEN ..`. Its names are sought among the words.
pub fn tell_line(
    out: &mut String,
    names: &mut NameTable,
    line: &Line,
    words: &str,
) -> Result<(), AllocError> {
    if !out.is_empty() {
        out.push_str(" | ")?;
    }
    let number = line.number;
    write!(out, "{number}:")?;
    for token in line.tokens.as_slice() {
        out.push_str(" ")?;
        tell_token(out, names, token, words)?;
    }
    Ok(())
}

// Appends how many tokens a logical line has after those before: `NUMBER:COUNT`.
pub fn count_line(out: &mut String, line: &Line) -> Result<(), AllocError> {
    if !out.is_empty() {
        out.push_str(" ")?;
    }
    let (number, count) = (line.number, line.tokens.len());
    write!(out, "{number}:{count}")
}

// Appends the rule and the line, and the file where it is another one.
pub fn tell_refusal(out: &mut String, refusal: &Refusal, file: u32) -> Result<(), AllocError> {
    let number = refusal.rule.number();
    let line = refusal.line;
    write!(out, "V{number:03} at {line}")?;
    if refusal.file == file {
        return Ok(());
    }
    let other = refusal.file;
    write!(out, " of file {other}")
}

// Appends why a file has no logical lines.
pub fn tell_lex_error(out: &mut String, error: &LexErr, file: u32) -> Result<(), AllocError> {
    match error {
        LexErr::Refused(refusal) => tell_refusal(out, refusal, file),
        LexErr::Memory => out.push_str("no memory"),
    }
}

// Appends why there is no tree.
pub fn tell_parse_error(out: &mut String, error: &ParseErr, file: u32) -> Result<(), AllocError> {
    match error {
        ParseErr::Refused(refusal) => tell_refusal(out, refusal, file),
        ParseErr::Memory => out.push_str("no memory"),
    }
}
