use thiserror::Error;

/// The reason why a session doesn't answer. It is as it was.
#[derive(Clone, Copy, Debug, PartialEq, Eq, Error)]
pub enum SessionFault {
    /// Memory ran out for a line.
    #[error("out of memory")]
    Memory,
    /// The user has had the most answers that are counted, 2^64 - 1.
    #[error("too many answers")]
    TooManyAnswers,
}
