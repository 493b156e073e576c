//! Why a text isn't a trace.
ghost use Rattle.std.specs.Prelude.{◌≡◌};

use thiserror::Error;

/// What can be wrong with a line, in the order in which a line is tested.
#[derive(Clone, Copy, Debug, PartialEq, Eq, Error)]
pub enum TextCause {
    /// The first line isn't the header, or there is no line.
    #[error("bad header")]
    BadHeader,
    /// The last line has no newline.
    #[error("no newline")]
    NoNewline,
    /// The line has a byte outside 0x20 to 0x7E.
    #[error("bad byte")]
    BadByte,
    /// The first word is none that a line may begin with.
    #[error("unknown word")]
    UnknownWord,
    /// The line has more or fewer words than its first word wants.
    #[error("wrong count")]
    WrongCount,
    /// A name or a place hasn't its form.
    #[error("bad name")]
    BadName,
    /// A declared name is declared already, or is `main`.
    #[error("taken")]
    Taken,
    /// A used name isn't declared.
    #[error("unknown name")]
    Unknown,
    /// A used name is declared as something else.
    #[error("wrong kind")]
    WrongKind,
    /// A number hasn't its form, or is over its limit.
    #[error("bad number")]
    BadNumber,
    /// There are as many as a trace can have.
    #[error("too many")]
    TooMany,
    /// A declaration stands after an event.
    #[error("late declaration")]
    LateDeclaration,
    /// The bodies of a program are in disorder. No trace has this cause.
    #[error("bad block")]
    BadBlock,
    /// A growth was refused.
    #[error("out of memory")]
    OutOfMemory,
}

/// The line at fault, and what is wrong with it.
#[derive(Clone, Copy, Debug, PartialEq, Eq, Error)]
#[error("line {line}: {cause}")]
pub struct TextFault {
    /// The number of the line, counted from 1.
    pub line: u64,
    /// The least cause that holds of it.
    pub cause: TextCause,
}
