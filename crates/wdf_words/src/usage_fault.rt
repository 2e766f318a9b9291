use wdf_report::UsageKind;

/// What is wrong with the words, and where: at this word, counted from 0, or, where an operand is
/// missing, at the number of words.
#[derive(Clone, Copy, Debug, PartialEq, Eq)]
pub struct UsageFault {
    pub word: usize,
    pub kind: UsageKind,
}
