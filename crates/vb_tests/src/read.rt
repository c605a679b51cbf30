// A text read by one of the calls of the crates below, and what is told of it.
ghost use Rattle.vb_syntax.specs.ContextualWords.{OptionsApart};

use crate::tell::{tell_lex_error, tell_parse_error};
use crate::tell_declarations::tell_declaration;
use crate::tell_expressions::tell_initializer;
use crate::tell_items::tell_item;
use crate::words_of;
use std::alloc::{AllocError, Global};
use std::process::Abort;
use vb_bind::{KnownNames, ReadErr, first_unbuilt, read_program};
use vb_bound::{Expr, Operand, Program, Statement};
use vb_ends::first_unended;
use vb_lexer::{LexErr, lex};
use vb_parse::{ParseErr, parse};
use vb_parse_decl::parse_declaration;
use vb_parse_expr::parse_initializer;
use vb_parse_stmt::parse_stmt;
use vb_rows::{FileRows, read_rows};
use vb_syntax::{
    Context, ContextualWords, DeclarationLine, Item, Joint, Line, Lines, Row, SourceFile,
    VariableInitializer,
};
use vb_text::NameTable;
use vb_tree::{BuildErr, build};

// The number of the file whose lines a text has.
pub const FILE: u32 = 3;

// The number of the file that a parser is told.
pub const PARSED: u32 = 7;

// By which call a text is read.
#[derive(Clone, Copy)]
pub enum Reader {
    // `parse_initializer`, which reads an expression or elements at the front of a line.
    Expression,
    // `parse_declaration` of a line.
    Declaration,
    // `parse_stmt` of a line, which is in an iterator's body where it begins with Yield.
    Statement,
    // `read_rows` of lines.
    Rows,
    // `first_unended` of the rows of lines.
    Ends,
    // `build` of the rows of lines.
    Tree,
    // `parse` of lines.
    File,
    // `read_program` and `first_unbuilt` of the tree of lines.
    Program,
}

// What stands before and behind the texts of a table. A stroke is a line's end here and in the texts.
pub type Around = (&'static str, &'static str);

// Nothing: the texts are whole files.
pub const ALONE: Around = ("", "");

// The texts are in the seventh line.
pub const SEVENTH: Around = ("//////", "");

// The texts are lines of a subroutine from line 3 on.
pub const SUB: Around = ("Module m / Sub s() / ", " / End Sub / End Module");

// The texts are lines of a class from line 2 on.
pub const CLASS: Around = ("Class c / ", " / End Class");

// The texts are lines of a program's `Main` from line 5 on.
pub const MAIN: Around = (
    "/ Imports SYSTEM / Module Squares / Sub MAIN() / ",
    " / End Sub / End Module",
);

fn add_text(file: &mut String, text: &str) -> Result<(), AllocError> {
    for c in text.chars() {
        file.push(if c == '/' { '\n' } else { c })?;
    }
    Ok(())
}

// The file of a text, with what stands around it.
pub fn file_of(alloc: Global, around: Around, text: &str) -> Result<String, AllocError> {
    let mut file = String::new(alloc);
    add_text(&mut file, around.0)?;
    add_text(&mut file, text)?;
    add_text(&mut file, around.1)?;
    Ok(file)
}

// The logical lines of a file.
pub fn lexed(alloc: Global, file: &[u8], names: &mut NameTable) -> Result<Lines, LexErr> {
    if file.len() > 4_194_304 {
        return Err(LexErr::Memory);
    }
    lex(alloc, FILE, file, names)
}

fn tell_expression_answer(
    out: &mut String,
    names: &mut NameTable,
    answer: &Result<(VariableInitializer, usize), ParseErr>,
    length: usize,
) -> Result<(), AllocError> {
    match answer {
        Ok((found, place)) => {
            tell_initializer(out, names, found)?;
            out.push_str(if *place == length { "" } else { " .." })
        }
        Err(error) => tell_parse_error(out, error, FILE),
    }
}

// Tells an expression, and `..` where more stands behind it.
fn tell_expression(out: &mut String, names: &mut NameTable, line: &Line) -> Result<(), AllocError> {
    let answer = parse_initializer(*out.allocator(), line, 0);
    let done = tell_expression_answer(out, names, &answer, line.tokens.len());
    drop(answer);
    done
}

fn tell_declaration_answer(
    out: &mut String,
    names: &mut NameTable,
    answer: &Result<DeclarationLine, ParseErr>,
) -> Result<(), AllocError> {
    match answer {
        Ok(found) => tell_declaration(out, names, found),
        Err(error) => tell_parse_error(out, error, FILE),
    }
}

fn tell_declared(
    out: &mut String,
    names: &mut NameTable,
    words: &ContextualWords,
    line: &Line,
) -> Result<(), AllocError> {
    let answer = parse_declaration(*out.allocator(), words, line);
    let done = tell_declaration_answer(out, names, &answer);
    drop(answer);
    done
}

fn tell_item_answer(
    out: &mut String,
    names: &mut NameTable,
    answer: &Result<Item, ParseErr>,
) -> Result<(), AllocError> {
    match answer {
        Ok(found) => tell_item(out, names, found),
        Err(error) => tell_parse_error(out, error, FILE),
    }
}

fn tell_statement(
    out: &mut String,
    names: &mut NameTable,
    context: &Context,
    line: &Line,
) -> Result<(), AllocError> {
    let answer = parse_stmt(*out.allocator(), context, line);
    let done = tell_item_answer(out, names, &answer);
    drop(answer);
    done
}

fn joint_sign(joint: Joint) -> &'static str {
    match joint {
        Joint::End => ". ",
        Joint::Colon => ": ",
        Joint::Then => "> ",
        Joint::Else => "| ",
    }
}

fn tell_row(out: &mut String, names: &mut NameTable, row: &Row) -> Result<(), AllocError> {
    match &row.item {
        Some(item) => tell_item(out, names, item)?,
        None => out.push_str("none")?,
    }
    out.push_str(joint_sign(row.behind))
}

// Tells the rows, and `fine` or the refusal.
pub fn tell_rows(
    out: &mut String,
    names: &mut NameTable,
    found: &FileRows,
) -> Result<(), AllocError> {
    for row in found.rows.as_slice() {
        tell_row(out, names, row)?;
    }
    match &found.refusal {
        None => out.push_str("fine"),
        Some(refusal) => crate::tell::tell_refusal(out, refusal, FILE),
    }
}

fn tell_read_rows(
    out: &mut String,
    names: &mut NameTable,
    words: &ContextualWords,
    lines: &[Line],
) -> Result<(), AllocError>
    requires { OptionsApart words.now }
{
    let found = read_rows(*out.allocator(), words, FILE, lines)?;
    let done = tell_rows(out, names, &found);
    drop(found);
    done
}

// Tells a line, or `fine`.
fn tell_first(out: &mut String, line: Option<u32>) -> Result<(), AllocError> {
    match line {
        None => out.push_str("fine"),
        Some(line) => write!(out, "{line}"),
    }
}

fn tell_ends(out: &mut String, words: &ContextualWords, lines: &[Line]) -> Result<(), AllocError>
    requires { OptionsApart words.now }
{
    let alloc = *out.allocator();
    let found = read_rows(alloc, words, FILE, lines)?;
    let first = first_unended(alloc, found.rows.as_slice());
    drop(found);
    tell_first(out, first?)
}

fn tell_built(out: &mut String, answer: &Result<SourceFile, BuildErr>) -> Result<(), AllocError> {
    match answer {
        Ok(_) => out.push_str("fine"),
        Err(BuildErr::Misplaced(line)) => write!(out, "misplaced at {line}"),
        Err(BuildErr::Unended) => out.push_str("unended"),
        Err(BuildErr::Memory) => out.push_str("no memory"),
    }
}

fn tell_tree(out: &mut String, words: &ContextualWords, lines: &[Line]) -> Result<(), AllocError>
    requires { OptionsApart words.now }
{
    let alloc = *out.allocator();
    let FileRows { rows, .. } = read_rows(alloc, words, FILE, lines)?;
    let answer = build(alloc, FILE, rows);
    let done = tell_built(out, &answer);
    drop(answer);
    done
}

fn tell_parsed(out: &mut String, answer: &Result<SourceFile, ParseErr>) -> Result<(), AllocError> {
    match answer {
        Ok(_) => out.push_str("fine"),
        Err(error) => tell_parse_error(out, error, PARSED),
    }
}

fn tell_file(out: &mut String, words: &ContextualWords, lines: &[Line]) -> Result<(), AllocError>
    requires { OptionsApart words.now }
{
    let answer = parse(*out.allocator(), words, PARSED, lines);
    let done = tell_parsed(out, &answer);
    drop(answer);
    done
}

// Appends a local, `$0`, or a number.
fn tell_operand(out: &mut String, operand: Operand) -> Result<(), AllocError> {
    match operand {
        Operand::Local(id) => {
            let id = id.0;
            write!(out, "${id}")
        }
        Operand::Number(number) => write!(out, "{number}"),
    }
}

fn tell_value(out: &mut String, value: Expr) -> Result<(), AllocError> {
    match value {
        Expr::One(operand) => tell_operand(out, operand),
        Expr::Two(left, operator, right) => {
            tell_operand(out, left)?;
            write!(out, " {operator:?} ")?;
            tell_operand(out, right)
        }
    }
}

fn tell_bound_line(out: &mut String, line: vb_bound::Line) -> Result<(), AllocError> {
    match line {
        vb_bound::Line::Does(Statement::Assign(target, value)) => {
            let id = target.0;
            write!(out, "; ${id} = ")?;
            tell_value(out, value)
        }
        vb_bound::Line::Does(Statement::WriteLine(value)) => {
            out.push_str("; write ")?;
            tell_value(out, value)
        }
        vb_bound::Line::While(test) => {
            out.push_str("; while ")?;
            tell_operand(out, test.left)?;
            let relation = test.relation;
            write!(out, " {relation:?} ")?;
            tell_operand(out, test.right)
        }
        vb_bound::Line::EndWhile => out.push_str("; end"),
    }
}

// Appends the first values of the locals, and the lines.
fn tell_program(out: &mut String, program: &Program) -> Result<(), AllocError> {
    out.push_str("program")?;
    for local in program.locals() {
        out.push_str(" ")?;
        match local {
            Some(value) => tell_operand(out, *value)?,
            None => out.push_str("-")?,
        }
    }
    for line in program.lines() {
        tell_bound_line(out, *line)?;
    }
    Ok(())
}

fn tell_read_program(
    out: &mut String,
    answer: &Result<Program, ReadErr>,
) -> Result<(), AllocError> {
    match answer {
        Ok(program) => tell_program(out, program),
        Err(ReadErr::Refused) => out.push_str("no program"),
        Err(ReadErr::Memory) => out.push_str("no memory"),
    }
}

// Tells the program of a tree, and the line of a form that isn't built.
fn tell_bound(
    out: &mut String,
    known: &KnownNames,
    answer: &Result<SourceFile, ParseErr>,
) -> Result<(), AllocError> {
    match answer {
        Ok(tree) => {
            let program = read_program(*out.allocator(), known, tree);
            tell_read_program(out, &program)?;
            match first_unbuilt(known, tree) {
                None => Ok(()),
                Some(line) => write!(out, " at {line}"),
            }
        }
        Err(error) => tell_parse_error(out, error, PARSED),
    }
}

fn tell_whole(
    out: &mut String,
    known: &KnownNames,
    words: &ContextualWords,
    lines: &[Line],
) -> Result<(), AllocError>
    requires { OptionsApart words.now }
{
    let answer = parse(*out.allocator(), words, PARSED, lines);
    let done = tell_bound(out, known, &answer);
    drop(answer);
    done
}

// Tells what a reader of one line finds.
fn tell_of_line(
    out: &mut String,
    names: &mut NameTable,
    context: &Context,
    reader: Reader,
    lines: &[Line],
) -> Result<(), AllocError> {
    let [line] = lines else {
        return out.push_str("not one line");
    };
    match reader {
        Reader::Expression => tell_expression(out, names, line),
        Reader::Declaration => tell_declared(out, names, &context.words, line),
        _ => tell_statement(out, names, context, line),
    }
}

// What is told of a file. Its table of names has those of programs and then those of the grammar before its own.
pub fn told(alloc: Global, reader: Reader, file: &str) -> Result<String, AllocError> {
    let mut out = String::new(alloc);
    let mut names = NameTable::new(alloc)?;
    let known = KnownNames::new(&mut names)?;
    let words = words_of(&mut names)?;
    let in_iterator = file.trim().starts_with("Yield");
    let context = Context { words, in_iterator };
    match lexed(alloc, file.as_bytes(), &mut names) {
        Ok(lines) => {
            let lines = lines.as_slice();
            match reader {
                Reader::Rows => tell_read_rows(&mut out, &mut names, &words, lines)?,
                Reader::Ends => tell_ends(&mut out, &words, lines)?,
                Reader::Tree => tell_tree(&mut out, &words, lines)?,
                Reader::File => tell_file(&mut out, &words, lines)?,
                Reader::Program => tell_whole(&mut out, &known, &words, lines)?,
                _ => tell_of_line(&mut out, &mut names, &context, reader, lines)?,
            }
        }
        Err(error) => tell_lex_error(&mut out, &error, FILE)?,
    }
    Ok(out)
}

// Each row has a text and what is told of it.
pub fn check(
    rt: &impl Abort,
    alloc: Global,
    reader: Reader,
    around: Around,
    rows: &[(&str, &str)],
) -> Result<(), AllocError> {
    for (text, wanted) in rows {
        let file = file_of(alloc, around, text)?;
        let seen = told(alloc, reader, &file)?;
        assert_eq!(rt; seen.as_str(), *wanted, "{text}");
    }
    Ok(())
}
