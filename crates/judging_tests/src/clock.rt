//! What race_clock does that no contract says.
mod stamps;
