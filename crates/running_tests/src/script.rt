//! What race_script does that no contract says.
mod programs;
mod selects;
mod texts;
