//! What the crates that judge a trace do that no contract says.
#![tactic(auto)]

#[cfg(test)]
mod access;
#[cfg(test)]
mod clock;
#[cfg(test)]
mod edges;
#[cfg(test)]
mod faults;
#[cfg(test)]
mod legal;
#[cfg(test)]
mod predict;
#[cfg(test)]
mod records;
#[cfg(test)]
mod rows;
#[cfg(test)]
mod shards;
#[cfg(test)]
mod streams;
