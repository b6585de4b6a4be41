//! The words of an expression (EDK II INF specification, [Depex]).
use build_base::Guid;

/// What joins two operands.
#[derive(Clone, Copy, PartialEq, Eq)]
pub(crate) enum Joiner {
    And,
    Or,
}

/// What stands before an operand.
#[derive(Clone, Copy, PartialEq, Eq)]
pub enum Prefix {
    Not,
    Sor,
}

/// What stands before a GUID name.
#[derive(Clone, Copy, PartialEq, Eq)]
pub(crate) enum Edge {
    Before,
    After,
}

/// A term. A name has the GUID that is declared for it, or none.
#[derive(Clone, Copy)]
pub enum Token {
    Name(Option<Guid>),
    Constant(bool),
    Edge(Edge),
    Joiner(Joiner),
    Prefix(Prefix),
    Open,
    Close,
}
