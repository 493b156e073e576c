//! What one entry of a trace says.

use crate::Cases;

/// One event of a trace: who did what, and where in the source.
///
/// Goroutines and objects are numbers of the trace's declarations, and places those of its places.
// The operation stands first: it alone holds a number of 64 bits, so that nothing is left blank.
#[derive(Debug, PartialEq, Eq, Drop)]
pub struct Event {
    /// What was done.
    pub op: Op,
    /// The goroutine whose event it is; of a `Meet` the sender.
    pub who: u32,
    /// Where in the source.
    pub place: u32,
    /// Where the receiver of a `Meet` stood; no other event has it.
    pub place2: Option<u32>,
}

/// What a goroutine did. In quotes stand sections of The Go Programming Language Specification; mutexes and onces are
/// those of package sync.
#[derive(Debug, PartialEq, Eq, Drop)]
pub enum Op {
    /// Started the goroutine of this number ("Go statements").
    Go(u32),
    /// Returned from its function ("Go statements"; of main "Program execution").
    Exit,
    /// Read this value from the variable of this number.
    Read(u32, u64),
    /// Wrote this value to the variable of this number.
    Write(u32, u64),
    /// Sent this value on the buffered channel of this number ("Send statements").
    Send(u32, u64),
    /// Received this value from the buffered channel of this number ("Receive operator").
    Recv(u32, u64),
    /// Handed to this goroutine, which received it, over the unbuffered channel of this number, this value ("Channel types").
    Meet(u32, u32, u64),
    /// Received from the channel of this number, which was closed and had no value left ("Close").
    RecvClosed(u32),
    /// Closed the channel of this number ("Close").
    Close(u32),
    /// Took the default of a select with these cases, of which none could go on ("Select statements").
    Default(Cases),
    /// Locked the mutex or the rwmutex of this number (`Lock`).
    Lock(u32),
    /// Unlocked the mutex or the rwmutex of this number (`Unlock`).
    Unlock(u32),
    /// Locked the rwmutex of this number for reading (`RLock`).
    RLock(u32),
    /// Unlocked the rwmutex of this number from reading (`RUnlock`).
    RUnlock(u32),
    /// Locked the mutex or the rwmutex of this number by a try that succeeded (`TryLock`). Of version 2.
    TryLock(u32),
    /// Locked the rwmutex of this number for reading by a try that succeeded (`TryRLock`). Of version 2.
    TryRLock(u32),
    /// Tried to lock the mutex or the rwmutex of this number, or to lock it for reading, without success. Of version 2.
    TryFail(u32),
    /// Began to run the function of the once of this number.
    OnceBegin(u32),
    /// Ended the function of the once of this number.
    OnceEnd(u32),
    /// Found that the function of the once of this number had run: the return of another call of `Do`.
    OnceDone(u32),
    /// Failed at run time, which ended the run ("Run-time panics", "Handling panics").
    Fault(Cause),
}

/// Why a run failed.
#[derive(Clone, Copy, Debug, PartialEq, Eq)]
pub enum Cause {
    /// A send on the channel of this number, which was closed.
    SendClosed(u32),
    /// A close of the channel of this number, which was closed before.
    CloseClosed(u32),
    /// A close of a nil channel.
    CloseNil,
    /// An unlock of the mutex or the rwmutex of this number, which wasn't locked.
    UnlockFree(u32),
    /// An unlock from reading of the rwmutex of this number, which wasn't locked for reading.
    RUnlockFree(u32),
}
