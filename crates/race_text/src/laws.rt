//! The laws of trace text. Each function does nothing, and its contract is the law.
ghost use Rattle.race_text.specs.Laws.{EndedFaultsStay, EqualTextsAreOfEqualTraces, FaultlessBytesAreTexts};
ghost use Rattle.race_text.specs.Laws.{LinesFollowTheTables, TextsHaveNoFault};

/// Each line has the words of the tables from which it is read and printed.
pub fn lines_follow_the_tables()
    ensures { LinesFollowTheTables }
{}

/// The text of a trace that fits has no fault.
pub fn texts_have_no_fault()
    ensures { TextsHaveNoFault }
{}

/// Bytes without a fault are some trace's text.
pub fn faultless_bytes_are_texts()
    ensures { FaultlessBytesAreTexts }
{}

/// Equal texts come from equal traces.
pub fn equal_texts_are_of_equal_traces()
    ensures { EqualTextsAreOfEqualTraces }
{}

/// The first fault of the lines that are ended is the whole text's, whatever follows.
pub fn ended_faults_stay()
    ensures { EndedFaultsStay }
{}
