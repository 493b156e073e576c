//! What the crates that run goroutines do that no contract says.
#![tactic(auto)]

#[cfg(test)]
mod asks;
#[cfg(test)]
mod faults;
#[cfg(test)]
mod hub;
#[cfg(test)]
mod record;
#[cfg(test)]
mod script;
#[cfg(test)]
mod turns;
