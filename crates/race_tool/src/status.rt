//! The statuses that the engines answer.

/// The trace is legal and has no race; of a listing, its edges are out; of a witness, it is; of a run, main returned.
pub const CLEAN: u8 = 0;

/// The trace is legal and has races. Go's own race detector exits with it too.
pub const RACES: u8 = 66;

/// An event breaks a rule.
pub const ILLEGAL: u8 = 1;

/// The input isn't the text of a trace, or of a program where one is wanted.
pub const TEXT_FAULT: u8 = 2;

/// An option is out of its limits, of which nothing is printed, or there are more events than are
/// judged, of which a line tells.
pub const USAGE: u8 = 3;

/// Memory or a thread was refused.
pub const REFUSED: u8 = 4;

/// A read or a write failed, or reading was given up after 2^32 reads.
pub const DEVICE: u8 = 5;

/// A run ended with a goroutine that failed.
pub const FAILED: u8 = 10;

/// A run ended since every goroutine that runs waits, and none can go on.
pub const DEADLOCK: u8 = 11;

/// A run ended with as many events as it may have.
pub const LIMIT: u8 = 12;

/// A run ended since a goroutine asked what can't be.
pub const BAD_REQUEST: u8 = 13;

/// The variable whose race is asked for has none, or the name is that of no variable.
pub const NO_RACE: u8 = 14;

/// A run is not recorded, since what a goroutine asked and was told isn't its part of the trace; or what
/// was recorded isn't a run of the program.
pub const MISMATCH: u8 = 15;

// Definitions cite these numbers, so each is written down twice.
const _: () = prove!(
    CLEAN == 0
        && RACES == 66
        && ILLEGAL == 1
        && TEXT_FAULT == 2
        && USAGE == 3
        && REFUSED == 4
        && DEVICE == 5
        && FAILED == 10
        && DEADLOCK == 11
        && LIMIT == 12
        && BAD_REQUEST == 13
        && NO_RACE == 14
        && MISMATCH == 15
);
