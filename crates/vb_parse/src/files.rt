// The syntax tree of a file's lines.
ghost use Rattle.std.specs.Prelude.{◌≡◌, ℕ, length, IfOk, Ok, Err, None, Some};
ghost use Rattle.vb_diag.specs.Rules.{IsRule};
ghost use Rattle.vb_diag.specs.Broken.{InFile, IsLeast, broken_at as broken_rule};
ghost use Rattle.vb_diag.specs.declared.refusal.Refusal.{Refusal as OneRefusal};
ghost use Rattle.vb_parse_expr.specs.declared.error.ParseErr.TheVariants as failure;
ghost use Rattle.vb_syntax.specs.declared.declaration.SourceFile.{SourceFile as Tree};
ghost use Rattle.vb_syntax.specs.ContextualWords.{OptionsApart};
ghost use Rattle.vb_tree.specs.declared.tree.BuildErr.{BuildErr as Fault};
ghost use Rattle.vb_tree.specs.declared.tree.BuildErr.TheVariants as fault;
ghost use Rattle.vb_parse.specs.Broken as spec;
ghost use Rattle.vb_parse.specs.Broken.{BreaksJudged};
ghost use Rattle.vb_parse.specs.Rules.{BreaksLines, IsTreeOf};

use crate::front::built_front;
use crate::row_rules::{RowRule, first_breaking};
use std::alloc::{AllocError, Global};
use vb_diag::{Refusal, Rule, broken_at, lesser};
use vb_ends::{first_too_deep, first_unended, open_blocks_break};
use vb_parse_expr::ParseErr;
use vb_rows::{FileRows, read_rows};
use vb_syntax::{ContextualWords, Line, Row, SourceFile};
use vb_tree::{BuildErr, one_tree};

/// The syntax tree of the logical lines of a file, of which there may be any number (Visual Basic Language Specification 11.0, 1.1, 6, 7, 9
/// and 10). `file` is the file's number, from 0, for the tree and for the refusal.
///
/// # Errors
///
/// `Refused` comes exactly where the lines break a rule on lines and blocks, with the least by line and then by number. `Memory` comes
/// where there is no memory for the rows or the tree.
pub fn parse(
    alloc: Global,
    words: &ContextualWords,
    file: u32,
    lines: &[Line],
) -> Result<SourceFile, ParseErr>
    requires { OptionsApart words.now }
    ensures tree { IfOk result (λ tree. IsTreeOf words.now file lines.now tree) }
    ensures alone { IfOk result (λ tree. (other : Tree) → IsTreeOf words.now file lines.now other → other ≡ tree) }
    ensures sound { IfOk result (λ tree. (line rule : ℕ) → BreaksLines words.now lines.now line rule → ⊥) }
    ensures refused { (r : OneRefusal) → result ≡ Err (failure.Refused r) → IsLeast (InFile file (BreaksLines words.now lines.now)) (Some r) }
{
    one_tree();
    open_blocks_break();
    let FileRows {
        rows,
        depths,
        refusal,
    } = read_rows(alloc, words, file, lines)?;
    let judged = judge(alloc, file, rows.as_slice(), depths.as_slice())?;
    let judged = lesser(refusal, judged);
    let built = built_front(alloc, file, rows, &judged);
    let least = lesser(broken(file, 34, misplaced_in(&built)), judged);
    unless_broken(least, built)
}

// The line of the row that can't stand where it is, if there is no tree for that.
fn misplaced_in(built: &Result<SourceFile, BuildErr>) -> Option<u32>
    ensures { result ≡ spec.misplaced_in built.now }
{
    match built {
        Err(BuildErr::Misplaced(line)) => Some(*line),
        _ => None,
    }
}

// The tree where no rule is broken, else the rule that is told first, or want of memory.
fn unless_broken(
    least: Option<Refusal>,
    built: Result<SourceFile, BuildErr>,
) -> Result<SourceFile, ParseErr>
    requires { least ≡ None → (f : Fault) → built ≡ Err f → f ≡ fault.Memory }
    ensures kept { IfOk result (λ tree. (built ≡ Ok tree) × (least ≡ None)) }
    ensures refused { (r : OneRefusal) → result ≡ Err (failure.Refused r) → least ≡ Some r }
    ensures memory { built ≡ Err fault.Memory → result ≡ Err failure.Memory }
{
    match (least, built) {
        (_, Err(BuildErr::Memory)) => Err(ParseErr::Memory),
        (Some(refusal), _) => Err(ParseErr::Refused(refusal)),
        (None, Ok(tree)) => Ok(tree),
        (None, Err(_)) => unreachable!(),
    }
}

// The rule of this number, where it is broken in a line of the file.
fn broken(file: u32, number: u16, line: Option<u32>) -> Option<Refusal>
    requires { IsRule number }
    ensures { result ≡ broken_rule file number line }
{
    broken_at(file, Rule::new(number), line)
}

// The rule on rows that is told first, but for that on where they stand.
fn judge(
    alloc: Global,
    file: u32,
    rows: &[Row],
    depths: &[usize],
) -> Result<Option<Refusal>, AllocError>
    requires { length depths.now ≡ length rows.now }
    ensures { IfOk result (λ least. IsLeast (InFile file (BreaksJudged rows.now depths.now)) least) }
{
    let unended = first_unended(alloc, rows)?;
    let too_deep = first_too_deep(alloc, rows, depths)?;
    let at_odds = first_breaking(RowRule::ModifiersAtOdds, rows);
    let unsupported = first_breaking(RowRule::UnsupportedOption, rows);
    let least = broken(file, 36, at_odds);
    let least = lesser(broken(file, 35, unsupported), least);
    let least = lesser(broken(file, 33, too_deep), least);
    Ok(lesser(broken(file, 31, unended), least))
}
