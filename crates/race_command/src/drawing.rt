//! The words of `gorace draw`: maybe the name of a variable.

use crate::help;
use clap::{Arg, ArgAction, ArgMatches, Command, Error};
use std::alloc::{AllocError, Global};

/// The command.
pub(crate) fn draw<'a>(alloc: Global) -> Result<Command<'a>, AllocError> {
    Command::new(alloc, "draw")
        .about(help::DRAW_ABOUT)
        .override_usage(help::DRAW_USAGE)
        .after_help(help::DRAW_HELP)
        .arg(Arg::new(alloc, "VAR").help(
            "The name of a variable with a race [default: each that has one]",
        ))?
        .arg(
            Arg::new(alloc, "svg")
                .long("svg")
                .action(ArgAction::SetTrue)
                .help("Write an SVG document, which a browser shows"),
        )
}

/// The name that is given, if one is.
pub(crate) fn drawn_variable(
    alloc: Global,
    given: &ArgMatches<'_>,
) -> Result<Option<String>, Error> {
    match given.get_str("VAR") {
        Some(name) => Ok(Some(String::from_str(alloc, name)?)),
        None => Ok(None),
    }
}
