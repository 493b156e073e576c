//! What is noted of a small list of events, and what isn't. Each function does nothing, and its contract is the example.
ghost use Rattle.std.specs.Prelude.{true, false};
ghost use Rattle.race_verdict.specs.{Notes.IsNoteOf, Examples.{write_and_read, note}};

/// Both accesses are noted, each by its index, its goroutine, whether it is a write, and its place.
pub fn accesses_are_noted()
    ensures write { IsNoteOf write_and_read (note 1 1 true 1) }
    ensures read { IsNoteOf write_and_read (note 2 0 false 2) }
{}

/// A note with another of these is none, and an event that is no access has none.
pub fn others_are_not()
    ensures another_goroutine { ¬ IsNoteOf write_and_read (note 1 0 true 1) }
    ensures another_place { ¬ IsNoteOf write_and_read (note 1 1 true 2) }
    ensures a_read { ¬ IsNoteOf write_and_read (note 1 1 false 1) }
    ensures no_access { ¬ IsNoteOf write_and_read (note 0 0 false 0) }
    ensures no_event { ¬ IsNoteOf write_and_read (note 3 0 false 2) }
{}
