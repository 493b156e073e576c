//! What race_record does that no contract says, and which recordings are runs of which programs.
mod certificates;
mod flags;
mod logs;
mod many;
mod nonsense;
mod refused;
mod runs;
mod selects;
mod workers;
