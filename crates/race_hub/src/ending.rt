//! How a run ends.

/// Why the hub goes on no more. The first that holds is told.
#[derive(Clone, Copy, Debug, PartialEq, Eq)]
pub enum End {
    /// Main returned.
    Main,
    /// A goroutine failed.
    Fault,
    /// The request of this goroutine was bad.
    Bad(u32),
    /// There are as many events as there may be.
    Limit,
    /// Every running goroutine waits, and none can go on.
    Deadlock,
}
