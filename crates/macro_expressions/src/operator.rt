//! The operators of expressions.

ghost use Rattle.std.specs.Prelude.{◌≡◌};
ghost use Rattle.macro_expressions.specs.Values.{level, takes_texts};

/// An operator with two operands.
#[derive(Clone, Copy, PartialEq, Eq)]
pub(crate) enum BinaryOperator {
    Or,
    And,
    BitOr,
    BitXor,
    BitAnd,
    Eq,
    Ne,
    Lt,
    Le,
    Gt,
    Ge,
    Shl,
    Shr,
    Add,
    Sub,
    Mul,
    Div,
    Rem,
}

/// An operator before its operand: logical not, and the complement of all bits.
#[derive(Clone, Copy, PartialEq, Eq)]
pub(crate) enum PrefixOperator {
    Not,
    Flip,
}

/// What a word of expressions stands for: a number, or an operator.
#[derive(Clone, Copy, PartialEq, Eq)]
pub(crate) enum Keyword {
    Number(u64),
    Binary(BinaryOperator),
    Prefix(PrefixOperator),
}

impl BinaryOperator {
    /// How strongly the operator binds: ten levels, the weakest first.
    pub fn level(self) -> u8
        ensures { result ≡ level self }
    {
        match self {
            BinaryOperator::Or => 0,
            BinaryOperator::And => 1,
            BinaryOperator::BitOr => 2,
            BinaryOperator::BitXor => 3,
            BinaryOperator::BitAnd => 4,
            BinaryOperator::Eq | BinaryOperator::Ne => 5,
            BinaryOperator::Lt | BinaryOperator::Le | BinaryOperator::Gt | BinaryOperator::Ge => 6,
            BinaryOperator::Shl | BinaryOperator::Shr => 7,
            BinaryOperator::Add | BinaryOperator::Sub => 8,
            BinaryOperator::Mul | BinaryOperator::Div | BinaryOperator::Rem => 9,
        }
    }

    /// Whether its operands may be texts.
    pub(crate) fn takes_texts(self) -> bool
        ensures { result ≡ takes_texts self }
    {
        self.level() == 5
    }
}
