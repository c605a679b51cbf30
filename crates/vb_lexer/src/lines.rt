// The logical lines of a file.
ghost use Rattle.std.specs.Prelude.{◌≡◌, ◌⊎◌, ◌≤◌, ◌<◌, ◌+◌, ◌^◌, ◌-◌, ◌++◌, ◌∷◌, [], ℕ, Bool, true, List, length, take, drop, IfOk, OnOk, OnErr, Err, Some, None};
ghost use Rattle.vb_text.specs.Names.{Extends};
ghost use Rattle.vb_text.specs.Units.{most_units};
ghost use Rattle.vb_diag.specs.declared.refusal.Refusal.{Refusal as OneRefusal};
ghost use Rattle.vb_diag.specs.Broken.{IsLeast, InFile};
ghost use Rattle.vb_lexer.specs.declared.piece.Piece.TheVariants as form;
ghost use Rattle.vb_lexer.specs.Tokens.{units_of};
ghost use Rattle.vb_lexer.specs.Pieces.{Part};
ghost use Rattle.vb_lexer.specs.Lines.{Item, items_from, mark_of, lines_in, with_piece, LexedFrom, Breaks};
ghost use Rattle.vb_lexer.specs.Reader.{Reads, part, items_here};
ghost use Rattle.vb_lexer.specs.Regions.{Tracks, AreBefore};
ghost use Rattle.vb_lexer.specs.Progress.{Finishes};

use crate::characters::{decoded, without_mark};
use crate::error::LexErr;
use crate::piece::{Before, Fault, Piece, rule_of};
use crate::pieces::{behind_piece, piece_at};
use crate::reader::Reader;
use crate::regions::Regions;
use crate::token::token_of;
use std::alloc::{AllocError, Global};
use vb_diag::{broken_at, lesser};
use vb_syntax::Lines;
use vb_text::NameTable;

/// What was read of a file.
#[derive(Drop)]
pub struct Progress {
    pub reader: Reader,
    pub regions: Regions,
    /// The number of the physical line.
    pub number: u32,
    /// Room for the spelling of a name.
    pub word: String,
}

impl Progress {
    fn new(alloc: Global, file: u32) -> Self
        ensures reads { (table : List (List ℕ)) → Reads table result.reader [] }
        ensures line { result.reader.line ≡ 1 }
        ensures breaks { result.reader.breaks ≡ true }
        ensures file { result.reader.file ≡ file }
        ensures tracks { Tracks result.regions [] }
        ensures number { result.number ≡ 1 }
    {
        Progress {
            reader: Reader::new(alloc, file),
            regions: Regions::new(),
            number: 1,
            word: String::new(alloc),
        }
    }

    // A piece comes with its characters.
    fn take(
        &mut self,
        alloc: Global,
        names: &mut NameTable,
        piece: Piece,
        characters: &[Option<char>],
    ) -> Result<(), AllocError>
        requires number { self.old.number + 1 < 2 ^ 32 }
        requires short { piece ≡ form.Text → length (units_of (take (length characters.now - 2) (drop 1 characters.now))) ≤ most_units }
        ensures items { OnOk result ((more : List Part) → items_from self.old.number self.old.reader.line self.old.reader.breaks (part piece characters.now ∷ more)
            ≡ items_here self.old.reader.line self.old.reader.breaks (part piece characters.now) ++ items_from self.new.number self.new.reader.line self.new.reader.breaks more) }
        ensures reads { OnOk result ((later : List (List ℕ)) (items : List Item) → Extends later names.new → Reads later self.old.reader items
            → Reads later self.new.reader (items ++ items_here self.old.reader.line self.old.reader.breaks (part piece characters.now))) }
        ensures marks { OnOk result ((marks : List (ℕ × Bool)) → Tracks self.old.regions marks → ((piece ≡ form.RegionStart) ⊎ (piece ≡ form.RegionEnd) → AreBefore marks self.old.number)
            → Tracks self.new.regions (marks ++ mark_of self.old.number piece)) }
        ensures number { OnOk result (self.new.number ≡ self.old.number + lines_in piece) }
        ensures file { self.new.reader.file ≡ self.old.reader.file }
        ensures names { Extends names.new names.old }
        ensures grown { OnOk result (names.new ≡ with_piece names.old piece characters.now) }
    {
        if let Some(token) = token_of(alloc, names, &mut self.word, piece, characters)? {
            return self.reader.add_token(alloc, piece, token);
        }
        match piece {
            Piece::Fault(fault) => return self.reader.add_fault(alloc, fault),
            Piece::RegionStart => self.regions.begin(self.number),
            Piece::RegionEnd => self.regions.end(self.number),
            Piece::Continuation => self.number += 1,
            Piece::LineEnd => {
                self.number += 1;
                self.reader.end_line(self.number);
            }
            _ => {}
        }
        Ok(())
    }

    // The file has ended.
    fn finish(self, alloc: Global) -> Result<Lines, LexErr>
        ensures { (table : List (List ℕ)) (items : List Item) (marks : List (ℕ × Bool)) → Reads table self.reader items → Tracks self.regions marks → Finishes table self.reader.file items marks result }
    {
        let Progress {
            mut reader,
            regions,
            ..
        } = self;
        reader.close(alloc)?;
        let Reader {
            file,
            lines,
            least,
            ..
        } = reader;
        let region = broken_at(file, rule_of(Fault::Region), regions.broken());
        match lesser(least, region) {
            Some(refusal) => Err(LexErr::Refused(refusal)),
            None => Ok(lines),
        }
    }
}

/// The logical lines of a file, whose number is `file` (Visual Basic Language Specification 11.0, 2).
///
/// The bytes are UTF-8, at most 4,194,304 of them; a byte order mark at their front is passed over. The words that are
/// names are added to `names`, which may have grown also where the answer is an error.
///
/// `Refused` comes exactly where the text breaks a lexical rule, with the least refusal of those that it breaks: by the line,
/// and then by the number of the rule. `Memory` is want of memory.
pub fn lex(alloc: Global, file: u32, bytes: &[u8], names: &mut NameTable) -> Result<Lines, LexErr>
    requires { length bytes.now ≤ 4194304 }
    ensures lexed { IfOk result (λ lines. LexedFrom names.old names.new file bytes.now lines) }
    ensures refused { (refusal : OneRefusal) → result ≡ Err (LexErr.Refused refusal) → IsLeast (InFile file (Breaks bytes.now)) (Some refusal) }
    ensures sound { IfOk result (λ lines. IsLeast (InFile file (Breaks bytes.now)) None) }
    ensures names { Extends names.new names.old }
{
    let all = decoded(alloc, bytes)?;
    let text = without_mark(&all);
    let mut progress = Progress::new(alloc, file);
    let mut before = Before {
        line_front: true,
        dot: false,
    };
    let mut rest = text;
    while 0 < rest.len() {
        let found = piece_at(before, rest);
        let (characters, behind) = rest.split_at(found.length);
        progress.take(alloc, names, found.piece, characters)?;
        before = behind_piece(before, found.piece);
        rest = behind;
    }
    progress.finish(alloc)
}
