//! What a line says, or why it says nothing that is known.

use crate::command::Command;
use std::alloc::AllocError;
use thiserror::Error;

/// What a line says.
#[derive(Debug, Drop)]
pub enum Line {
    /// It has no words, or is a remark.
    Nothing,
    /// Its words are this command.
    Word(Command),
    /// Its words are `try` and this question, which is asked of what is staged.
    Try(Command),
}

/// Why a line isn't read, in the order of the checks.
#[derive(Debug, Drop, Error)]
pub enum LineFault {
    /// It has more than 140,000 bytes.
    #[error("the line is too long")]
    TooLong,
    /// Its first word begins no command.
    #[error("the word is unknown")]
    UnknownWord,
    /// The words behind the first are too few or too many, or one of them isn't of its form or in its range.
    #[error("the words have a bad form")]
    BadForm,
    /// The word after `lsp` isn't pairs of hexadecimal digits.
    #[error("the text is not hexadecimal")]
    BadHex,
    /// Memory ran out.
    #[error(transparent)]
    Memory(AllocError),
}
