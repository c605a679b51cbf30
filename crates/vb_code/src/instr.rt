// The instructions.

use vb_num::Kind;

/// A constant that is pushed.
#[derive(Clone, Copy, Debug, PartialEq, Eq)]
pub enum Constant {
    Integer(i32),
}

/// An arithmetic operation on two numbers of one kind (ECMA-335, III.3.1, III.3.48, III.3.65: the forms that throw on overflow).
#[derive(Clone, Copy, Debug, PartialEq, Eq)]
pub enum Arithmetic {
    Add,
    Sub,
    Mul,
}

/// A comparison of two numbers of one kind.
#[derive(Clone, Copy, Debug, PartialEq, Eq)]
pub enum Comparison {
    Equal,
    NotEqual,
    Less,
    LessOrEqual,
    Greater,
    GreaterOrEqual,
}

/// A library call that asks nothing of the store.
#[derive(Clone, Copy, Debug, PartialEq, Eq)]
pub enum Silent {
    /// The decimal text of a number.
    TextOf,
}

/// When an asking instruction's entry counts as a step of the source program.
#[derive(Clone, Copy, Debug, PartialEq, Eq)]
pub enum Mark {
    Never,
    Always,
    /// Exactly where a compare-exchange has found what it compares with.
    IfEqual,
}

/// An instruction. A place is the number of an instruction in its procedure, a slot that of a local, and a text that of a
/// text of the code, each from 0.
#[derive(Clone, Copy, Debug, PartialEq, Eq)]
pub enum Instr {
    Push(Constant),
    PushText(usize),
    LoadLocal(usize),
    StoreLocal(usize),
    /// Throws System.OverflowException where the result is out of the kind's range.
    Arith(Arithmetic, Kind),
    Compare(Comparison),
    /// Throws System.OutOfMemoryException above 1,048,576 units.
    Concat,
    Intrinsic(Silent),
    Jump(usize),
    JumpIf(usize),
    Write(Mark),
    Return,
}

/// An instruction, and how many statements of the source begin with it. The number has no effect on a run.
#[derive(Clone, Copy, Debug, PartialEq, Eq)]
pub struct Step {
    pub begins: u32,
    pub instr: Instr,
}
