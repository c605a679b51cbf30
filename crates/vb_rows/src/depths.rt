// How deep the rows of a line nest in it.
ghost use Rattle.std.specs.Prelude.{◌≡◌, ◌<◌, ◌+◌, ◌^◌, ◌≤◌, [], ◌∷◌, ◌++◌, if◌then◌else◌, length, OnOk};
ghost use Rattle.vb_syntax.specs.declared.item.Joint.TheVariants as joint;
ghost use Rattle.vb_rows.specs.declared.pieces.Before.TheVariants as before;
ghost use Rattle.vb_rows.specs.Pieces.{cut, kept, label_of as label_name};
ghost use Rattle.vb_rows.specs.Cutting.{is_left_out as is_left_out_piece};
ghost use Rattle.vb_rows.specs.Files as spec;

use crate::pieces::{Found, before_of, behind_label, first_piece, is_left_out, label_of, skipped};
use std::alloc::AllocError;
use vb_syntax::{Items, Joint, Line, Symbol, Token};

// How many brackets are open behind a token.
fn open_behind(depth: usize, token: &Token) -> usize
    requires { depth + 1 < 2 ^ 64 }
    ensures count { result ≡ spec.open_behind depth token.now }
    ensures few { result ≤ depth + 1 }
{
    match token {
        Token::Symbol(Symbol::OpenParenthesis | Symbol::OpenBrace) => depth + 1,
        Token::Symbol(Symbol::CloseParenthesis | Symbol::CloseBrace) => depth.saturating_sub(1),
        _ => depth,
    }
}

// The greatest number of brackets, round or curly, that are open behind one of the tokens.
fn deepest(tokens: &[Token]) -> usize
    ensures count { result ≡ spec.deepest 0 tokens.now }
    ensures few { result ≤ length tokens.now }
{
    let mut depth: usize = 0;
    let mut most: usize = 0;
    for token in tokens {
        depth = open_behind(depth, token);
        most = most.max(depth);
    }
    most
}

// How many `If`s on one line are open behind a piece, in front of which so many are.
fn ifs_behind(ifs: usize, behind: Joint) -> usize
    requires { ifs + 1 < 2 ^ 64 }
    ensures { result ≡ spec.ifs_behind ifs behind }
{
    match behind {
        Joint::Then => ifs + 1,
        _ => ifs,
    }
}

// Adds the depth of the label at the front of tokens, which doesn't nest.
fn add_label(tokens: &[Token], depths: &mut Items<usize>) -> Result<(), AllocError>
    ensures { OnOk result (depths.new ≡ depths.old ++ spec.label_depths (label_name tokens.now)) }
{
    match label_of(tokens) {
        Some(_) => depths.push(0),
        None => Ok(()),
    }
}

// Adds the depth of a piece behind so many `If`s on one line, where it isn't left out.
fn add_piece(
    from: Joint,
    found: Found,
    ifs: usize,
    piece: &[Token],
    depths: &mut Items<usize>,
) -> Result<(), AllocError>
    requires { ifs + length piece.now < 2 ^ 64 }
    ensures { OnOk result (depths.new ≡ depths.old ++ (if is_left_out_piece from found then [] else (ifs + spec.deepest 0 piece.now) ∷ [])) }
{
    if is_left_out(from, found) {
        return Ok(());
    }
    depths.push(ifs + deepest(piece))
}

// Adds the depth of each piece of tokens.
fn add_pieces(tokens: &[Token], depths: &mut Items<usize>) -> Result<(), AllocError>
    ensures { OnOk result (depths.new ≡ depths.old ++ spec.piece_depths 0 (kept joint.End (cut before.Front tokens.now))) }
{
    let mut rest = tokens;
    let mut joint = Joint::End;
    let mut ifs: usize = 0;
    loop {
        let found = first_piece(before_of(joint), rest);
        let (piece, behind) = rest.split_at(found.length);
        add_piece(joint, found, ifs, piece, depths)?;
        if found.behind.is_end() {
            return Ok(());
        }
        rest = &behind[skipped(found.behind)..];
        ifs = ifs_behind(ifs, found.behind);
        joint = found.behind;
    }
}

/// Adds how deep each row of a line nests in it. The error is want of memory.
pub fn add_depths(line: &Line, depths: &mut Items<usize>) -> Result<(), AllocError>
    ensures { OnOk result (depths.new ≡ depths.old ++ spec.line_depths line.now) }
{
    let tokens = line.tokens.as_slice();
    add_label(tokens, depths)?;
    add_pieces(&tokens[behind_label(tokens)..], depths)
}
