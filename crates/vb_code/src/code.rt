// Code: texts, class records and procedures.
ghost use Rattle.std.specs.Prelude.{◌≡◌, ◌<◌, ◌+◌, ◌^◌, ◌-◌, ℕ, List, length, map, slice_get, Some, None, IfSome, OnSome, unwrap_or, bytes_eq};
ghost use Rattle.vb_code.specs.Code.{Code as SeenCode, Procedure, body_of, begins_of, begins_at, begins_from, text_at, class_from, class_name, class_units, locals_of};
ghost use Rattle.vb_code.specs.declared.instr.Step.{Step};
ghost use Rattle.vb_code.specs.Shapes.{IsChecked};

use crate::Step;
use std::marker::Model;
use vb_text::Text;
use vb_value::Shape;

/// A class record: the number of the text that is its full name, the class that it inherits, which stands before it, and
/// the heap units of one object.
#[derive(Clone, Copy, Debug, PartialEq, Eq)]
pub struct Class {
    pub name: usize,
    pub base: Option<usize>,
    pub units: u32,
}

/// A procedure: the number of the text that is its name, the shapes of its locals, and its instructions.
#[derive(Drop)]
pub struct Proc {
    name: usize,
    locals: Vec<Shape>,
    steps: Vec<Step>,
}

impl Model for Proc {
    ghost use Rattle.std.specs.Prelude.{map};
    ghost use Rattle.vb_code.specs.Code.{Procedure, begins_from};

    ghost Value = { Procedure };

    ghost view = { λ p. record { name = p.name; locals = p.locals.items; body = map (λ s. s.instr) p.steps.items; begins = begins_from 0 p.steps.items } };
}

impl Proc {
    ghost use Rattle.vb_code.specs.Code.{procedure_of};

    /// The procedure of this name, these locals and these instructions.
    pub fn new(name: usize, locals: Vec<Shape>, steps: Vec<Step>) -> Self
        ensures { result ≡ procedure_of name locals.items steps.items }
    {
        Proc {
            name,
            locals,
            steps,
        }
    }
}

/// Texts, class records and procedures, of which one is `Main`.
#[derive(Drop)]
pub struct Code {
    texts: Vec<Text>,
    classes: Vec<Class>,
    procs: Vec<Proc>,
    main: usize,
}

impl Model for Code {
    ghost use Rattle.vb_code.specs.Code.{Code as SeenCode};

    ghost Value = { SeenCode };

    ghost view = { λ c. record { texts = c.texts.items; classes = c.classes.items; procs = c.procs.items; main = c.main } };
}

impl Code {
    ghost use Rattle.vb_code.specs.Code.{code_with};

    /// The code of these parts.
    pub fn new(texts: Vec<Text>, classes: Vec<Class>, procs: Vec<Proc>, main: usize) -> Self
        ensures { result ≡ code_with texts.items classes.items procs.items main }
    {
        Code {
            texts,
            classes,
            procs,
            main,
        }
    }
}

impl Code {
    ghost use Rattle.std.specs.Prelude.{map};
    ghost use Rattle.vb_code.specs.Code.{body_of, begins_of, begins_from, class_name, class_units, class_named, inherits, throwable, base_in};

    /// The instructions of `Main`, and none where there is no `Main`.
    pub fn steps(&self) -> &[Step]
        ensures body { body_of self.now ≡ map (λ s. s.instr) result.now }
        ensures begins { begins_of self.now ≡ begins_from 0 result.now }
    {
        match self.procs.get(self.main) {
            Some(main) => main.steps.as_slice(),
            None => &[],
        }
    }

    /// The shapes of the locals of `Main`, and none where there is no `Main`.
    pub fn locals(&self) -> &[Shape]
        ensures { result.now ≡ locals_of self.now }
    {
        match self.procs.get(self.main) {
            Some(main) => main.locals.as_slice(),
            None => &[],
        }
    }

    /// The full name of a class as UTF-16 units. A class that is not there has the empty name.
    pub fn class_name(&self, class: usize) -> &[u16]
        ensures { result.now ≡ class_name self.now class }
    {
        match self.classes.get(class) {
            Some(record) => self.units_at(record.name),
            None => &[],
        }
    }

    /// The heap units of one object of a class. A class that is not there has 0.
    pub fn class_units(&self, class: usize) -> u32
        ensures { result ≡ class_units self.now class }
    {
        match self.classes.get(class) {
            Some(record) => record.units,
            None => 0,
        }
    }

    /// The number of the first class of a full name, where it is System.Exception or inherits it.
    pub fn throwable(&self, name: &[u8]) -> Option<usize>
        ensures { result ≡ throwable self.now name.now }
    {
        let class = self.class_named(name);
        if self.inherits(class) { class } else { None }
    }

    // The number of the first class of a full name.
    fn class_named(&self, name: &[u8]) -> Option<usize>
        ensures { result ≡ class_named self.now name.now }
    {
        for (number, class) in self.classes.iter().enumerate() {
            if same_units(self.units_at(class.name), name) {
                return Some(number);
            }
        }
        None
    }

    // Whether a class, or one that it inherits, is System.Exception.
    fn inherits(&self, class: Option<usize>) -> bool
        ensures { result ≡ inherits self.now (length self.now.classes) class }
    {
        let mut heir = class;
        'steps: for _ in 0..self.classes.len() {
            let Some(number) = heir else {
                return false;
            };
            if same_units(self.class_name(number), b"System.Exception") {
                return true;
            }
            heir = self.base(number);
        }
        false
    }

    // The class that a class inherits.
    fn base(&self, class: usize) -> Option<usize>
        ensures { result ≡ base_in (slice_get self.now.classes class) }
    {
        match self.classes.get(class) {
            Some(record) => record.base,
            None => None,
        }
    }

    // The units of the text of a number. One that is not there is empty.
    fn units_at(&self, number: usize) -> &[u16]
        ensures { result.now ≡ text_at self.now.texts number }
    {
        match self.texts.get(number) {
            Some(text) => text.units(),
            None => &[],
        }
    }

    /// The text of a number.
    pub fn text(&self, number: usize) -> &Text
        requires { number < length self.now.texts }
        ensures { result.now ≡ text_at self.now.texts number }
    {
        &self.texts[number]
    }
}

// Whether units are those of an ASCII name.
fn same_units(units: &[u16], name: &[u8]) -> bool
    ensures { result ≡ bytes_eq units.now name.now }
{
    if units.len() != name.len() {
        return false;
    }
    for (index, byte) in name.iter().enumerate() {
        if units[index] != u16::from(*byte) {
            return false;
        }
    }
    true
}

/// Code in which each instruction that is reached finds its operands.
#[derive(Drop)]
pub struct Checked {
    code: Code,
}

impl Model for Checked {
    ghost use Rattle.vb_code.specs.Code.{Code as SeenCode};
    ghost use Rattle.vb_code.specs.Shapes.{IsChecked};

    ghost Value = { SeenCode };

    ghost view = { λ c. c.code };

    ghost invariant = { λ c. IsChecked c.code };
}

impl Checked {
    /// The code, which is checked.
    pub fn new(code: Code) -> Self
        requires { IsChecked code }
        ensures { result ≡ code }
    {
        Checked { code }
    }

    /// The code.
    pub fn code(&self) -> &Code
        ensures code { result.now ≡ self.now }
        ensures checked { IsChecked self.now }
    {
        &self.code
    }
}

/// Each place of a procedure that was made of steps has the instruction of its step, and as many statements begin there
/// as the step says.
pub fn steps_stand()
    ensures { (ss : List Step) (place : ℕ) (s : Step) → slice_get ss place ≡ Some s → begins_at (begins_from 0 ss) place ≡ s.begins }
{}
