//! What race_access does that no contract says.
mod variables;
