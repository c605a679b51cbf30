// The whole program.
ghost use Rattle.std.specs.Prelude.{◌≡◌};

use crate::{Line, Operand};
use std::marker::Model;

/// The body of `Main`: the locals in order, each with its value if its declaration gives one, and the lines behind the
/// declarations. Each name is bound, and the loops' lines match as brackets.
#[derive(Drop)]
pub struct Program {
    locals: Vec<Option<Operand>>,
    lines: Vec<Line>,
}

impl Model for Program {
    ghost use Rattle.vb_bound.specs.Tree.{Outline, IsBound, HasBlock};

    ghost Value = { Outline };

    ghost view = { λ p. record { locals = p.locals.items; lines = p.lines.items } };

    ghost invariant = { λ p. IsBound (record { locals = p.locals.items; lines = p.lines.items }) × HasBlock p.lines.items };
}

impl Program {
    ghost use Rattle.vb_bound.specs.Tree.{IsBound, HasBlock, outline};

    /// The program of these declarations and lines.
    pub fn new(locals: Vec<Option<Operand>>, lines: Vec<Line>) -> Self
        requires bound { IsBound (outline locals.items lines.items) }
        requires matched { HasBlock lines.items }
        ensures { result ≡ outline locals.items lines.items }
    {
        Program { locals, lines }
    }

    /// The locals in order, each with its value if its declaration gives one.
    pub fn locals(&self) -> &[Option<Operand>]
        ensures value { result.now ≡ self.now.locals }
        ensures bound { IsBound self.now }
        ensures matched { HasBlock self.now.lines }
    {
        self.locals.as_slice()
    }

    /// The lines behind the declarations.
    pub fn lines(&self) -> &[Line]
        ensures { result.now ≡ self.now.lines }
    {
        self.lines.as_slice()
    }
}
