//! Operators on two values.

/// How two values of one type make one (polars `Operator`).
#[derive(Clone, Copy, Debug, PartialEq, Eq)]
pub enum Operator {
    /// The two are the same.
    Eq,
    /// The two are the same, where a null is the same as a null.
    EqValidity,
    /// The two differ.
    NotEq,
    /// The two differ, where a null differs from every value.
    NotEqValidity,
    /// The left one is less.
    Lt,
    /// The left one is less or the same.
    LtEq,
    /// The left one is greater.
    Gt,
    /// The left one is greater or the same.
    GtEq,
    /// The sum of integers, wrapping; of texts, the left one followed by the right one.
    Plus,
    /// The difference, wrapping.
    Minus,
    /// The product, wrapping.
    Multiply,
    /// The quotient, toward zero.
    Divide,
    /// The quotient, toward minus infinity.
    FloorDivide,
    /// What the floored quotient leaves, with the divisor's sign.
    Modulus,
    /// Both are true; of integers, bit by bit.
    And,
    /// One of the two is true; of integers, bit by bit.
    Or,
    /// Exactly one is true; of integers, bit by bit.
    Xor,
    /// Both are true or not zero.
    LogicalAnd,
    /// One of the two is true or not zero.
    LogicalOr,
}
