// The parts of a program.

/// The number of a local of `Main`, from 0 in order of declaration.
#[derive(Clone, Copy, Debug, PartialEq, Eq)]
pub struct LocalId(pub usize);

/// What an operator or a relation takes: a local, or an Integer literal (Visual Basic Language Specification 11.0, 2.4.2).
#[derive(Clone, Copy, Debug, PartialEq, Eq)]
pub enum Operand {
    Local(LocalId),
    Number(i32),
}

/// An arithmetic operator on two Integers (Visual Basic Language Specification 11.0, 11.13).
#[derive(Clone, Copy, Debug, PartialEq, Eq)]
pub enum Operator {
    Add,
    Sub,
    Mul,
}

/// A relational operator on two Integers (Visual Basic Language Specification 11.0, 11.14).
#[derive(Clone, Copy, Debug, PartialEq, Eq)]
pub enum Relation {
    Equal,
    NotEqual,
    Less,
    LessOrEqual,
    Greater,
    GreaterOrEqual,
}

/// An expression: an operand, or an operator between two.
#[derive(Clone, Copy, Debug, PartialEq, Eq)]
pub enum Expr {
    One(Operand),
    Two(Operand, Operator, Operand),
}

/// The test of a loop.
#[derive(Clone, Copy, Debug, PartialEq, Eq)]
pub struct Condition {
    pub left: Operand,
    pub relation: Relation,
    pub right: Operand,
}

/// A statement without a block.
#[derive(Clone, Copy, Debug, PartialEq, Eq)]
pub enum Statement {
    Assign(LocalId, Expr),
    WriteLine(Expr),
}

/// A line behind the declarations: a statement, or the front or the end of a While loop
/// (Visual Basic Language Specification 11.0, 10.9.1).
#[derive(Clone, Copy, Debug, PartialEq, Eq)]
pub enum Line {
    Does(Statement),
    While(Condition),
    EndWhile,
}
