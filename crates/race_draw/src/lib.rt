//! The picture of a race: who did what, which synchronization there was, and the order that is missing; and that of a clean trace.
#![tactic(auto)]

mod cells;
mod clean;
mod draw;
pub mod examples;
mod fold;
mod layout;
mod others;
mod picture;
mod printed;
mod reduced;
mod rows;
mod sentence;
mod strokes;
mod svg;
mod text;
mod way;
mod words;

pub use draw::{draw_clean, draw_races, write_text};
