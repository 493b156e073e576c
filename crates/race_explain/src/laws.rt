//! The laws of the lines that are shown. Each function does nothing, and its contract is the law.
ghost use Rattle.race_explain.specs.Laws.{EventsHaveTheirLines, FaultsHaveTheirLines};

/// In a trace's text the line that is named for an event is its line.
pub fn events_have_their_lines()
    ensures { EventsHaveTheirLines }
{}

/// Bytes have the line of their first fault.
pub fn faults_have_their_lines()
    ensures { FaultsHaveTheirLines }
{}
