//! A file that is given by name, where standard input is read.

use crate::command::reader;
use clap::Error;
use clap::error::ErrorKind;
use std::alloc::{AllocError, Global};
use std::convert::AsStr;

/// What is wrong with the words: the error of the parse, or of a file's name that the command reads standard input.
pub(crate) fn explained<S: AsStr>(
    alloc: Global,
    words: &[S],
    error: Error,
) -> Result<Error, AllocError> {
    if words.len() < 2 || !is_of_a_name(alloc, &error)? {
        return Ok(error);
    }
    let name = words[1].as_str();
    let Some(mut command) = reader(alloc, name)? else {
        return Ok(error);
    };
    let text = format!(in alloc; "gorace reads standard input: gorace {name} < FILE")?;
    command.error(ErrorKind::UnknownArgument, text.as_str())
}

// Whether the error is of a word too many that is no option.
fn is_of_a_name(alloc: Global, error: &Error) -> Result<bool, AllocError> {
    if error.kind() != ErrorKind::UnknownArgument {
        return Ok(false);
    }
    let text = format!(in alloc; "{error}")?;
    Ok(!text.as_str().starts_with("error: unexpected argument '-"))
}
