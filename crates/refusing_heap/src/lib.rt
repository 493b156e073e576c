//! An allocator that refuses one growth, for tests of what a value is once memory ran out.
#![tactic(auto)]

mod heap;

pub use heap::RefusingHeap;

#[cfg(test)]
mod tests;
