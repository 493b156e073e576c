//! What a report says in one line, in full: the word at fault, the rule with its values, what the two of a race had locked.
#![tactic(auto)]

mod channel_rule;
mod clean;
mod count;
mod cut_off;
mod doubt;
pub mod examples;
mod exchanged;
mod explain;
mod fault;
mod field;
mod header;
mod holding;
mod illegal;
pub mod laws;
mod line;
mod moment;
mod names;
mod near;
mod operand;
mod past;
mod put;
mod race;
mod rule;
mod sentence;
mod shown;
mod unlocking;
mod values;
mod word;

pub use explain::{explain_fault, explain_trace};
