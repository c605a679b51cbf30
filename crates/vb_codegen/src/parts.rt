// The parts of the code that are the same for each program, and its locals.
ghost use Rattle.std.specs.Prelude.{◌≡◌, ◌<◌, IfOk, All, length};
ghost use Rattle.vb_codegen.specs.Emitted.{class, classes, integers, texts};

use std::alloc::{AllocError, Global};
use vb_bound::Operand;
use vb_code::Class;
use vb_num::Kind;
use vb_text::Text;
use vb_value::Shape;

/// The line end, the names of the classes, and the name of Main.
pub fn texts(alloc: Global) -> Result<Vec<Text>, AllocError>
    ensures { IfOk result (λ v. v.items ≡ texts) }
{
    let mut texts = Vec::new(alloc);
    texts.push(text(alloc, b"\n")?)?;
    texts.push(text(alloc, b"System.Exception")?)?;
    texts.push(text(alloc, b"System.OverflowException")?)?;
    texts.push(text(alloc, b"System.OutOfMemoryException")?)?;
    texts.push(text(alloc, b"Main")?)?;
    Ok(texts)
}

// A short text of ASCII characters.
fn text(alloc: Global, ascii: &[u8]) -> Result<Text, AllocError>
    requires ascii { All (λ byte. byte < 128) ascii.now }
    requires short { length ascii.now < 1000 }
    ensures { IfOk result (λ text. text ≡ ascii.now) }
{
    match Text::from_ascii(alloc, ascii) {
        Ok(text) => Ok(text),
        Err(_) => Err(AllocError),
    }
}

/// System.Exception, and the two classes under it that instructions throw.
pub fn classes(alloc: Global) -> Result<Vec<Class>, AllocError>
    ensures { IfOk result (λ v. v.items ≡ classes) }
{
    let mut classes = Vec::new(alloc);
    classes.push(class(1, None))?;
    classes.push(class(2, Some(0)))?;
    classes.push(class(3, Some(0)))?;
    Ok(classes)
}

// A class whose objects have the units of an exception.
fn class(name: usize, base: Option<usize>) -> Class
    ensures { result ≡ class name base }
{
    Class {
        name,
        base,
        units: 2,
    }
}

/// Each local is an Integer.
pub fn integers(alloc: Global, locals: &[Option<Operand>]) -> Result<Vec<Shape>, AllocError>
    ensures { IfOk result (λ v. v.items ≡ integers locals.now) }
{
    locals
        .iter()
        .map(|_| Shape::Num(Kind::Integer))
        .collect(alloc)
}
