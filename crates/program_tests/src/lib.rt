//! What the program reads and writes that no contract says and no command line shows.
#![tactic(auto)]

#[cfg(test)]
mod devices;
#[cfg(test)]
mod text;
#[cfg(test)]
mod tool;
#[cfg(test)]
mod words;
