//! Which access an event is, and which of its goroutine's events.

/// An access, with its number among its goroutine's events.
#[derive(Clone, Copy, Debug, PartialEq, Eq)]
pub struct Stamp {
    /// Which event it is, counted from 0.
    pub at: u32,
    /// The goroutine.
    pub who: u32,
    /// How many events the goroutine took part in, this one included.
    pub count: u32,
    /// The variable.
    pub var: u32,
    /// Whether it is a write.
    pub write: bool,
}
