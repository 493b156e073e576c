//! What race_shards does that no contract says.
mod blocks;
mod gates;
mod own_events;
mod verdicts;
mod witnesses;
