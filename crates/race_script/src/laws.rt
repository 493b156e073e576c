//! The laws of program text. Each function does nothing, and its contract is the law.
ghost use Rattle.race_script.specs.Laws.{EndedFaultsStay, EqualTextsAreOfEqualPrograms, FaultlessBytesAreTexts};
ghost use Rattle.race_script.specs.Laws.{PlacesCount, TextsHaveNoFault, WordsFollowTheVersion};

/// The text of a program has no fault.
pub fn texts_have_no_fault()
    ensures { TextsHaveNoFault }
{}

/// Bytes without a fault are some program's text.
pub fn faultless_bytes_are_texts()
    ensures { FaultlessBytesAreTexts }
{}

/// Equal texts come from equal programs.
pub fn equal_texts_are_of_equal_programs()
    ensures { EqualTextsAreOfEqualPrograms }
{}

/// A header says its version, and the words of asks are known in the versions that have the asks alone.
pub fn words_follow_the_version()
    ensures { WordsFollowTheVersion }
{}

/// The first fault of the lines that are ended is the whole text's, whatever follows.
pub fn ended_faults_stay()
    ensures { EndedFaultsStay }
{}

/// A run of a body stands where the body does.
pub fn places_count()
    ensures { PlacesCount }
{}
