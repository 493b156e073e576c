//! Of which kind an operation is, on which object.
ghost use Rattle.std.specs.Prelude.{◌≡◌};
ghost use Rattle.race_model.specs.Events as model;

use race_records::Op;

/// A send on the channel.
pub(crate) fn is_send(chan: u32, op: &Op) -> bool
    ensures { result ≡ model.sends chan op.now }
{
    match op {
        Op::Send(other, _) => *other == chan,
        _ => false,
    }
}

/// A receive from it.
pub(crate) fn is_receive(chan: u32, op: &Op) -> bool
    ensures { result ≡ model.receives chan op.now }
{
    match op {
        Op::Recv(other, _) => *other == chan,
        _ => false,
    }
}

/// A close of it.
pub(crate) fn is_close(chan: u32, op: &Op) -> bool
    ensures { result ≡ model.closes chan op.now }
{
    match op {
        Op::Close(other) => *other == chan,
        _ => false,
    }
}

/// A lock of the lock for writing, by whichever call.
pub(crate) fn is_lock(lock: u32, op: &Op) -> bool
    ensures { result ≡ model.locks lock op.now }
{
    match op {
        Op::Lock(other) => *other == lock,
        Op::TryLock(other) => *other == lock,
        _ => false,
    }
}

/// An unlock of it.
pub(crate) fn is_unlock(lock: u32, op: &Op) -> bool
    ensures { result ≡ model.unlocks lock op.now }
{
    match op {
        Op::Unlock(other) => *other == lock,
        _ => false,
    }
}

/// An unlock of it from reading.
pub(crate) fn is_runlock(lock: u32, op: &Op) -> bool
    ensures { result ≡ model.runlocks lock op.now }
{
    match op {
        Op::RUnlock(other) => *other == lock,
        _ => false,
    }
}

/// The end of the once's function.
pub(crate) fn is_once_end(once: u32, op: &Op) -> bool
    ensures { result ≡ model.once_ends once op.now }
{
    match op {
        Op::OnceEnd(other) => *other == once,
        _ => false,
    }
}
