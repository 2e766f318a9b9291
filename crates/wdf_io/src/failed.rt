use thiserror::Error;

/// A source or a sink failed: its count of faults rose in the call that answers this.
#[derive(Clone, Copy, Debug, PartialEq, Eq, Error)]
#[error("reading or writing failed")]
pub struct Failed;
