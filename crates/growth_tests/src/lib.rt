//! Each public call that takes memory, each growth refused in turn.
#![tactic(auto)]

#[cfg(test)]
mod accesses;
#[cfg(test)]
mod calls;
#[cfg(test)]
mod engines;
#[cfg(test)]
mod hubs;
#[cfg(test)]
mod jobs;
#[cfg(test)]
mod judges;
#[cfg(test)]
mod orders;
#[cfg(test)]
mod played;
#[cfg(test)]
mod programs;
#[cfg(test)]
mod recordings;
#[cfg(test)]
mod records;
#[cfg(test)]
mod replays;
#[cfg(test)]
mod stamps;
#[cfg(test)]
mod texts;
#[cfg(test)]
mod traced;
