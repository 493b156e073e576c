//! Small texts with their first faults. Each function does nothing, and its contract is the example.
ghost use Rattle.std.specs.Prelude.{◌≡◌, [], Some, None};
ghost use Rattle.race_text.specs.Fault.{text_fault};
ghost use Rattle.race_text.specs.Examples as text;

use crate::TextCause;

/// A trace has no fault, whether it is legal or not.
pub fn a_trace_has_no_fault()
    ensures { text_fault text.fine ≡ None }
{}

/// The first line is the header, and a newline ends each line.
pub fn the_header_comes_first()
    ensures empty { text_fault [] ≡ Some (text.fault_at 1 TextCause.BadHeader) }
    ensures no_newline { text_fault text.no_newline ≡ Some (text.fault_at 1 TextCause.NoNewline) }
    ensures second { text_fault text.no_newline_2 ≡ Some (text.fault_at 1 TextCause.NoNewline) }
    ensures other { text_fault text.no_version ≡ Some (text.fault_at 1 TextCause.BadHeader) }
{}

/// Tries to lock are events in version 2, and their words are unknown in version 1.
pub fn tries_are_of_version_two()
    ensures two { text_fault text.tries ≡ None }
    ensures lock { text_fault text.early_try ≡ Some (text.fault_at 3 TextCause.UnknownWord) }
    ensures rlock { text_fault text.early_try_to_read
        ≡ Some (text.fault_at 3 TextCause.UnknownWord) }
    ensures failure { text_fault text.early_failure ≡ Some (text.fault_at 3 TextCause.UnknownWord) }
    ensures rwmutex { text_fault text.mutex_tried_for_rwmutex
        ≡ Some (text.fault_at 3 TextCause.WrongKind) }
{}

/// Each word has one spelling, and single spaces stand between words.
pub fn a_line_has_one_spelling()
    ensures number { text_fault text.leading_zero ≡ Some (text.fault_at 3 TextCause.BadNumber) }
    ensures spaces { text_fault text.two_spaces ≡ Some (text.fault_at 3 TextCause.WrongCount) }
    ensures name { text_fault text.long_name ≡ Some (text.fault_at 2 TextCause.BadName) }
{}

/// Words are known, and names are declared, before the first event and as what they are used for.
pub fn names_are_declared_first()
    ensures late { text_fault text.late_declaration
        ≡ Some (text.fault_at 4 TextCause.LateDeclaration) }
    ensures word { text_fault text.unknown_word ≡ Some (text.fault_at 9 TextCause.UnknownWord) }
    ensures unknown { text_fault text.unknown_name ≡ Some (text.fault_at 4 TextCause.Unknown) }
    ensures kind { text_fault text.wrong_kind ≡ Some (text.fault_at 4 TextCause.WrongKind) }
    ensures rwmutex { text_fault text.mutex_for_rwmutex
        ≡ Some (text.fault_at 6 TextCause.WrongKind) }
{}
