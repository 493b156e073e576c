//! The rules of legality.
ghost use Rattle.std.specs.{Prelude.{◌≡◌, [], ◌∷◌}, Option.option_map};
ghost use Rattle.race_model.specs.Legal.{least_broken};
ghost use Rattle.race_legal.specs.Rules.{number_of};

/// A rule that an event can break, in the order in which they are tested. The first has number 1. In quotes stand
/// sections of The Go Programming Language Specification; the rules on locks and onces are those of package sync.
#[derive(Clone, Copy, Debug, PartialEq, Eq)]
pub enum Rule {
    /// The run is over ("Program execution", "Handling panics").
    AfterEnd = 1,
    /// Who acts doesn't run ("Go statements").
    NotRunning,
    /// The goroutine was started before, or is main ("Go statements").
    AlreadyStarted,
    /// The receiver is the sender ("Channel types").
    MeetsItself,
    /// A buffered operation on an unbuffered channel, or the other way round ("Channel types").
    WrongForm,
    /// The channel is closed ("Send statements").
    SendOnClosed,
    /// The channel's buffer has no room ("Send statements").
    BufferFull,
    /// The channel's buffer has no value ("Receive operator").
    BufferEmpty,
    /// The value received isn't the one sent ("Channel types": first in, first out).
    WrongValue,
    /// The channel is open ("Receive operator").
    NotClosed,
    /// The closed channel still has a value ("Close").
    NotDrained,
    /// The channel was closed before ("Close").
    CloseOfClosed,
    /// The lock is held (`Lock`, `RLock`, `TryLock`, `TryRLock`).
    Held,
    /// The lock is held for reading (`Lock`, `TryLock`).
    ReadHeld,
    /// The lock isn't held (`Unlock`).
    NotHeld,
    /// The lock isn't held for reading (`RUnlock`).
    NotReadHeld,
    /// The once was begun before (`Do`).
    OnceAgain,
    /// The once isn't the innermost that the goroutine has begun and not ended (`Do`).
    OnceNotInner,
    /// The once isn't ended (`Do`).
    OnceNotDone,
    /// The goroutine has a once that isn't ended (`Do`).
    OnceOpen,
    /// The value read isn't the last one written, or 0 where none was ("The zero value").
    StaleRead,
    /// A case of the select is ready ("Select statements").
    CaseReady,
    /// The cause of the fault doesn't hold ("Run-time panics").
    NoFault,
}

impl Rule {
    /// The number of the rule, from 1 to 23.
    pub fn number(self) -> u8
        ensures { result ≡ number_of self }
    {
        self as u8
    }
}

// The rule, where it is broken.
pub(crate) fn rule_if(rule: Rule, broken: bool) -> Option<Rule>
    ensures { option_map number_of result ≡ least_broken ((number_of rule, broken) ∷ []) }
{
    if broken { Some(rule) } else { None }
}
