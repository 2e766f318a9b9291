/// What is wrong with the words of the command line, in the order in which a word is looked at.
#[derive(Clone, Copy, Debug, PartialEq, Eq)]
pub enum UsageKind {
    /// There are no words.
    NoCommand,
    /// The first word is no command.
    UnknownCommand,
    /// The word has no `=`.
    NoEquals,
    /// The command has no operand of this name.
    UnknownOperand,
    /// A word before this one gives the same operand.
    DoubleOperand,
    /// Nothing stands behind the `=`.
    EmptyValue,
    /// The value is not 1 to 20 decimal digits of a number below 2^64.
    BadNumber,
    /// The number is out of the operand's range.
    OutOfRange,
    /// All words are well and an operand that the command needs is not among them.
    MissingOperand,
}
