//! The command line of `gorace`: from its words, over any reader and any writer, to a status.
#![tactic(auto)]

mod command;
mod drawing;
mod exploring;
mod help;
mod number;
mod predicting;
mod program;
mod reading;
mod showing;

pub use program::run;
