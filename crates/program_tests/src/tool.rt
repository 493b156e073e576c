//! What the engines of race_tool do that no contract says.
mod engines;
mod failing;
mod keys;
mod pieces;
mod reads;
mod unread;
