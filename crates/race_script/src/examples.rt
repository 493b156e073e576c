//! Small texts of programs with their first faults. Each function does nothing, and its contract is the example.
ghost use Rattle.std.specs.Prelude.{◌≡◌, Some, None};
ghost use Rattle.race_script.specs.Examples as text;
ghost use Rattle.race_script.specs.Fault.{text_fault};

use race_text::TextCause;

/// What version 1 has, version 2 has too.
pub fn a_program_has_no_fault()
    ensures one { text_fault text.locks ≡ None }
    ensures two { text_fault text.locks_2 ≡ None }
{}

/// A header of another version than these two is none.
pub fn a_header_says_the_version()
    ensures no_newline { text_fault text.no_newline_2
        ≡ Some (text.fault_at 1 TextCause.NoNewline) }
    ensures nothing { text_fault text.nothing_2 ≡ Some (text.fault_at 2 TextCause.BadBlock) }
    ensures other { text_fault text.no_version ≡ Some (text.fault_at 1 TextCause.BadHeader) }
{}

/// Tries are asked for in version 2, and their words are unknown in version 1.
pub fn tries_are_of_version_two()
    ensures two { text_fault text.tries ≡ None }
    ensures lock { text_fault text.early_try ≡ Some (text.fault_at 4 TextCause.UnknownWord) }
    ensures rlock { text_fault text.early_try_to_read
        ≡ Some (text.fault_at 4 TextCause.UnknownWord) }
    ensures rwmutex { text_fault text.mutex_tried_for_rwmutex
        ≡ Some (text.fault_at 4 TextCause.WrongKind) }
    ensures failure { text_fault text.asked_failure
        ≡ Some (text.fault_at 4 TextCause.UnknownWord) }
{}
