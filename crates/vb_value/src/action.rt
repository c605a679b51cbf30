// What a thread asks of the store, and what it is answered.

use crate::Value;
use vb_text::Text;

/// One atomic step of a thread.
#[derive(Drop)]
pub enum Action {
    /// A new object of the class of this number.
    New { class: usize },
    /// The text goes to the console.
    Write { text: Text },
    /// The thread has ended.
    End,
}

/// What an action is answered.
#[derive(Drop)]
pub enum Answer {
    Done,
    Value(Value),
}
