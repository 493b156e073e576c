//! What a goroutine asks, what it is told, and the step of its log that keeps both.
ghost use Rattle.std.specs.Prelude.{◌≡◌};

use crate::Offers;

/// What a goroutine would do with a channel; `None` stands for a nil channel.
#[derive(Clone, Copy, Debug, PartialEq, Eq)]
pub enum Offer {
    /// Send this value on the channel of this number.
    Send(Option<u32>, u64),
    /// Receive from the channel of this number.
    Recv(Option<u32>),
}

/// What a goroutine asks to do next.
#[derive(Debug, PartialEq, Eq, Drop)]
pub enum Ask {
    /// Start the goroutine of this number.
    Go(u32),
    /// Return from its function.
    Exit,
    /// Read the variable of this number.
    Read(u32),
    /// Write this value to the variable of this number.
    Write(u32, u64),
    /// Send this value on the channel of this number, or on nil.
    Send(Option<u32>, u64),
    /// Receive from the channel of this number, or from nil.
    Recv(Option<u32>),
    /// Close the channel of this number, or nil.
    Close(Option<u32>),
    /// Do one of these with its channel, or none of them where none can go on and it has a default.
    Select(Offers, bool),
    /// Lock the mutex or the rwmutex of this number.
    Lock(u32),
    /// Unlock the mutex or the rwmutex of this number.
    Unlock(u32),
    /// Lock the rwmutex of this number for reading.
    RLock(u32),
    /// Unlock the rwmutex of this number from reading.
    RUnlock(u32),
    /// Lock the mutex or the rwmutex of this number if that can be done at once.
    TryLock(u32),
    /// Lock the rwmutex of this number for reading if that can be done at once.
    TryRLock(u32),
    /// Run the function of the once of this number, unless that was done.
    Do(u32),
    /// End the function of the once of this number.
    EndDo(u32),
}

impl Ask {
    /// The same ask.
    pub fn copy(&self) -> Ask
        ensures { result ≡ self.now }
    {
        match self {
            Ask::Go(goroutine) => Ask::Go(*goroutine),
            Ask::Exit => Ask::Exit,
            Ask::Read(var) => Ask::Read(*var),
            Ask::Write(var, value) => Ask::Write(*var, *value),
            Ask::Send(chan, value) => Ask::Send(*chan, *value),
            Ask::Recv(chan) => Ask::Recv(*chan),
            Ask::Close(chan) => Ask::Close(*chan),
            Ask::Select(offers, has_default) => Ask::Select(offers.copy(), *has_default),
            Ask::Lock(lock) => Ask::Lock(*lock),
            Ask::Unlock(lock) => Ask::Unlock(*lock),
            Ask::RLock(lock) => Ask::RLock(*lock),
            Ask::RUnlock(lock) => Ask::RUnlock(*lock),
            Ask::TryLock(lock) => Ask::TryLock(*lock),
            Ask::TryRLock(lock) => Ask::TryRLock(*lock),
            Ask::Do(once) => Ask::Do(*once),
            Ask::EndDo(once) => Ask::EndDo(*once),
        }
    }
}

/// What a goroutine asks, and where in the source it stands.
#[derive(Debug, PartialEq, Eq, Drop)]
pub struct Request {
    /// What it asks.
    pub ask: Ask,
    /// The number of the place.
    pub place: u32,
}

impl Request {
    /// The same request.
    pub fn copy(&self) -> Request
        ensures { result ≡ self.now }
    {
        Request {
            ask: self.ask.copy(),
            place: self.place,
        }
    }
}

/// What a goroutine is told.
#[derive(Clone, Copy, Debug, PartialEq, Eq)]
pub enum Answer {
    /// It was started.
    Begin,
    /// It was done, and there is nothing to tell.
    Unit,
    /// The value that was read or received.
    Value(u64),
    /// The channel is closed and has no value left.
    Closed,
    /// A select went on by its offer of this number, counted from 0, and received that value, if it received one.
    Chosen(u32, Option<u64>),
    /// A select took its default.
    DefaultTaken,
    /// The function of the once is to be run.
    Run,
    /// The function of the once had run.
    AlreadyDone,
    /// Whether the lock was taken.
    Tried(bool),
}

/// One step of a goroutine's log.
#[derive(Debug, PartialEq, Eq, Drop)]
pub struct Step {
    /// What it asked.
    pub asked: Request,
    /// What it was told; nothing after an exit and after a fault.
    pub told: Option<Answer>,
}

/// A request that waits, and whose it is.
#[derive(Debug, PartialEq, Eq, Drop)]
pub struct Waiter {
    /// The goroutine.
    pub who: u32,
    /// What it asks.
    pub asked: Request,
}
