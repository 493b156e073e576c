//! The words of `gorace witness`: the name of a variable.

use crate::help;
use clap::{Arg, ArgMatches, Command, Error};
use std::alloc::{AllocError, Global};

/// The command.
pub(crate) fn witness<'a>(alloc: Global) -> Result<Command<'a>, AllocError> {
    Command::new(alloc, "witness")
        .about(help::WITNESS_ABOUT)
        .override_usage(help::WITNESS_USAGE)
        .after_help(help::WITNESS_HELP)
        .arg(
            Arg::new(alloc, "VAR")
                .required(true)
                .help("The name of a variable with a race"),
        )
}

/// The name that is given. Without one there are no matches.
pub(crate) fn shown_variable(alloc: Global, given: &ArgMatches<'_>) -> Result<String, Error> {
    Ok(String::from_str(alloc, given.get_str("VAR").unwrap_or(""))?)
}
