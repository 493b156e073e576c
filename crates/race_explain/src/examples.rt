//! What is shown of small texts and of a small trace, and what isn't. Each function does nothing, and its contract is the example.
ghost use Rattle.std.specs.Prelude.{◌≡◌, ◌++◌, ◌∷◌, [], codes, replicate, Some, None};
ghost use Rattle.race_text.specs.declared.cause.TextCause.{TextCause};
ghost use Rattle.race_verdict.specs.declared.verdict.Verdict.{Verdict};
ghost use Rattle.race_explain.specs.Explained.{AreRacesShown, IsExplained, IsFaultShown};
ghost use Rattle.race_explain.specs.Marked.{first_shown, line_at, marked_line, shown_from, IsMarked, IsMarkFor};
ghost use Rattle.race_explain.specs.Shown.{event_shown, event_text, line_of, race_shown};
ghost use Rattle.race_explain.specs.Examples.{two_lines, with_tab, wrong_count, trace, race};

/// An event is shown with its number, its line's number and its line; both numbers count from 1.
pub fn an_event_is_shown_with_its_line()
    ensures number { line_of trace 1 ≡ 5 }
    ensures shown { event_shown trace 1 ≡ codes "event 2 is line 5: write w x 7 q\n" }
    ensures both { race_shown trace race
        ≡ codes "\nevent 2 is line 5: write w x 7 q\nevent 3 is line 6: read main x 7 r\n" }
    ensures no_event { event_text trace 3 ≡ [] }
{}

/// Lines count from 1, and what stands behind the last newline is a line too.
pub fn a_line_is_found_by_its_number()
    ensures first { line_at two_lines 1 ≡ Some (codes "gotrace 1") }
    ensures second { line_at two_lines 2 ≡ Some (codes "var x") }
    ensures behind { line_at two_lines 3 ≡ Some [] }
    ensures none { line_at two_lines 4 ≡ None }
{}

/// A mark stands below its column. A bad byte is shown as a question mark, and of a long line a part.
#[tactic(auto, unfolding(crate::specs::Marked::marked_line))]
pub fn a_line_is_shown_with_a_mark()
    ensures column { marked_line (codes "var") 1 ≡ codes "  \"var\"\n    ^\n" }
    ensures end { marked_line (codes "var") 3 ≡ codes "  \"var\"\n      ^\n" }
    ensures bad_byte { marked_line with_tab 1 ≡ codes "  \"v?r\"\n    ^\n" }
    ensures whole { shown_from 0 (replicate 200 97) ≡ replicate 200 97 }
    ensures part { shown_from 0 (replicate 201 97) ≡ replicate 200 97 }
    ensures near { first_shown 120 ≡ 0 }
    ensures far { first_shown 121 ≡ 1 }
{}

/// A bad byte is marked itself, and a missing newline at the line's end. No mark stands past the end.
pub fn a_mark_stands_where_the_fault_is()
    ensures bad_byte { IsMarkFor TextCause.BadByte with_tab 1 }
    ensures another_byte { ¬ IsMarkFor TextCause.BadByte with_tab 0 }
    ensures no_newline { IsMarked TextCause.NoNewline (codes "var") (marked_line (codes "var") 3 ++ codes "why\n") }
    ensures before_the_end { ¬ IsMarked TextCause.NoNewline (codes "var") (marked_line (codes "var") 2) }
    ensures past_the_end { ¬ IsMarked TextCause.WrongCount [] (marked_line [] 1) }
{}

/// Behind the report of a fault comes the line of its number, where there is one.
pub fn a_fault_is_shown_with_its_line()
    ensures shown { IsFaultShown two_lines (wrong_count 2) (codes "line 2: wrong count\n  \"var x\"\n   ^\nwhy\n") }
    ensures another_line { ¬ IsFaultShown two_lines (wrong_count 2) (codes "line 2: wrong count\n  \"gotrace 1\"\n   ^\n") }
    ensures nothing { ¬ IsFaultShown two_lines (wrong_count 2) (codes "line 2: wrong count\n") }
    ensures no_line { IsFaultShown two_lines (wrong_count 4) (codes "line 4: wrong count\n") }
{}

/// Behind the report of a verdict come its races, and of a clean trace anything.
pub fn a_verdict_is_shown_with_its_races()
    ensures clean { IsExplained {A = Unit {0}} trace Verdict.Clean (codes "clean: 3 events, 2 accesses\nwhy\n") }
    ensures another_count { ¬ IsExplained {A = Unit {0}} trace Verdict.Clean (codes "clean: 3 events, 1 accesses\nwhy\n") }
    ensures shown { AreRacesShown trace (race ∷ []) (race_shown trace race ++ codes "why\n") }
    ensures words { ¬ AreRacesShown trace (race ∷ []) (codes "why\n") }
    ensures no_race { ¬ AreRacesShown trace [] (codes "why\n") }
{}
