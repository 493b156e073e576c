//! What race_records does that no contract says.
mod declarations;
mod devices;
mod traces;
