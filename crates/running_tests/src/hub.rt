//! What race_hub does that no contract says.
mod board;
mod hubs;
mod routines;
mod search;
mod selects;
mod tries;
