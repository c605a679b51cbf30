//! Stack code, what it means that code is checked, and the state of one thread that runs it.
//!
//! Proved: checked code has no failing place, and the types keep what they say.
//!
//! Only tested: nothing.
//!
//! Assumed: the definitions of specs/, which say what code means.
#![tactic(auto)]

mod check;
mod code;
mod instr;
mod local;
mod stack;

pub use check::failing_places;
pub use code::{Checked, Class, Code, Proc, steps_stand};
pub use instr::{Arithmetic, Comparison, Constant, Instr, Mark, Silent, Step};
pub use local::{Local, Position};
pub use stack::{Operands, Slots};
