//! The text of a trace: which bytes are one, which trace it is, and else the line at fault and why.
#![tactic(auto)]

mod ahead;
mod cause;
mod common;
mod cut;
mod declaration;
mod event;
pub mod examples;
mod fed;
mod fed_ahead;
mod fields;
mod finder;
mod form;
mod grammar;
mod guesses;
mod header;
mod lanes;
pub mod laws;
mod line_reader;
mod meaning;
mod number;
mod parse;
mod reader;
mod select;
mod stream;
mod taking;
mod words;
mod writing;

pub use ahead::LineAhead;
pub use cause::{TextCause, TextFault};
#[doc(hidden)]
pub use common::{Cursor, Deed, Said};
#[doc(hidden)]
pub use cut::{cut_at, has_bad_byte};
#[doc(hidden)]
pub use declaration::cause_of;
pub use declaration::read_declaration;
#[doc(hidden)]
pub use event::{Draft, goroutine_of, last_place, next_operand, next_operands};
pub use fed::Fed;
#[doc(hidden)]
pub use fed::Lines;
#[doc(hidden)]
pub use fields::{fields_cause, least, lesser};
#[doc(hidden)]
pub use finder::{has_count, word_cause};
#[doc(hidden)]
pub use form::{Field, Word, word_in, word_named};
pub use grammar::Grammar;
#[doc(hidden)]
pub use guesses::{Guess, Guesses};
pub use line_reader::LineReader;
#[doc(hidden)]
pub use meaning::{chan_in, number_in, operand_in, place_in};
pub use number::read_number;
pub use parse::{parse_by, parse_trace};
pub use race_records::{WriteFault, is_name, is_place};
#[doc(hidden)]
pub use reader::Reader;
#[doc(hidden)]
pub use select::Attempt;
pub use stream::EventStream;
pub use words::{Words, split_words};
pub use writing::{print_event, write_trace};
