use thiserror::Error;

/// Why a dependency's text is refused: the first cause from left to right.
#[derive(Clone, Copy, PartialEq, Eq, Debug, Error)]
pub enum DepFault {
    /// Where an operator, a comparison or a closing parenthesis is due, another word stands.
    #[error("BadOperator")]
    BadOperator,
    /// An operand or an EVR is due, and the text ends or another word stands there.
    #[error("MissingOperand")]
    MissingOperand,
    /// An operator that the rule in hand does not go on with.
    #[error("MixedOperators")]
    MixedOperators,
    /// The text ends with a parenthesis open, and no operand is due.
    #[error("UnclosedParenthesis")]
    UnclosedParenthesis,
    /// The 65th operator, or the 65th parenthesis that is open at one time.
    #[error("TooDeep")]
    TooDeep,
    /// The whole text may not stand at its place.
    #[error("OperatorNotHere")]
    OperatorNotHere,
    /// A text is new, and the pool has 2^24.
    #[error("FullNames")]
    FullNames,
    /// A relation is new, and the pool has 2^24.
    #[error("FullRelations")]
    FullRelations,
    /// There was no memory.
    #[error("Memory")]
    Memory,
}
