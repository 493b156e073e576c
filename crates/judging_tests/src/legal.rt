//! What race_legal does that no contract says.
mod replays;
