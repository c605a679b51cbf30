// What a row does to blocks.

/// A sort of block, by its ender (Visual Basic Language Specification 11.0, 7, 9 and 10).
#[derive(Clone, Copy, Debug, PartialEq, Eq)]
pub enum Sort {
    /// An `If` statement of several lines (10.8.1), ended by `End If`.
    If,
    /// A `While` statement (10.9.1), ended by `End While`.
    While,
    /// A `Do` statement (10.9.1), ended by `Loop`.
    Do,
    /// A `For` or `For Each` statement (10.9.2 and 10.9.3), ended by `Next`.
    For,
    /// A `Select` statement (10.8.2), ended by `End Select`.
    Select,
    /// A `Try` statement (10.10.1), ended by `End Try`.
    Try,
    /// A `SyncLock` statement (10.4), ended by `End SyncLock`.
    SyncLock,
    /// A `With` statement (10.3), ended by `End With`.
    With,
    /// A `Using` statement (10.13), ended by `End Using`.
    Using,
    /// A subroutine or constructor (9.2.1 and 9.3), ended by `End Sub`.
    Sub,
    /// A function (9.2.1), ended by `End Function`.
    Function,
    /// A property (9.7), ended by `End Property`.
    Property,
    /// A property's `Get` accessor (9.7.1), ended by `End Get`.
    Get,
    /// A property's `Set` accessor (9.7.2), ended by `End Set`.
    Set,
    /// A custom event (9.4.1), ended by `End Event`.
    Event,
    /// A custom event's `AddHandler` accessor (9.4.1), ended by `End AddHandler`.
    AddHandler,
    /// A custom event's `RemoveHandler` accessor (9.4.1), ended by `End RemoveHandler`.
    RemoveHandler,
    /// A custom event's `RaiseEvent` accessor (9.4.1), ended by `End RaiseEvent`.
    RaiseEvent,
    /// A module (7.7), ended by `End Module`.
    Module,
    /// A class (7.5), ended by `End Class`.
    Class,
    /// An interface (7.8), ended by `End Interface`.
    Interface,
}

/// What a row does to blocks (Visual Basic Language Specification 11.0, 7, 9 and 10).
#[derive(Clone, Copy, Debug, PartialEq, Eq)]
pub enum Role {
    /// It opens a block.
    Opens(Sort),
    /// It is the ender of a block.
    Ends(Sort),
    /// It does neither.
    Stays,
}

/// What a row does to blocks, and the number of its logical line. Several marks may stand in one line (Visual Basic Language
/// Specification 11.0, 1.1).
#[derive(Clone, Copy, Debug, PartialEq, Eq)]
pub struct Mark {
    pub role: Role,
    pub line: u32,
}
