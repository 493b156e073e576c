//! Programs: their texts, scripts that ask what their bodies say, and whether a recording is a run of one.
#![tactic(auto)]

mod asks;
mod certificate;
mod course;
pub mod examples;
mod form;
mod header;
pub mod laws;
mod offers;
mod parse;
mod program;
mod program_reader;
mod reader;
mod script;

#[doc(hidden)]
pub use asks::ask_by;
pub use certificate::{NotARun, certify};
#[doc(hidden)]
pub use form::{BODY_WORDS, LineKeyword, StepKeyword, ask_kinds};
#[doc(hidden)]
pub use offers::SelectWords;
pub use parse::parse_program;
pub use program::{MAX_STEPS, Program};
pub use program_reader::ProgramReader;
#[doc(hidden)]
pub use reader::{Reader, Unended};
pub use script::Script;
