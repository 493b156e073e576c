//! What race_text does that no contract says.
mod feeding;
mod reading;
mod writing;
