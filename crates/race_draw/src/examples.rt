//! What is drawn of a few edges, and beside each what isn't. Each function does nothing, and its contract is the example.
ghost use Rattle.std.specs.Prelude.{◌≡◌, [], ◌∷◌, true, false, codes, Some, None};
ghost use Rattle.race_draw.specs.{Clean.kept, Picture.column_of, Fold.folds, Layout.next_of, Svg.escaped, Examples.edge};
ghost use Rattle.race_draw.specs.Examples.{lanes_of, goroutines, over_a_receive, handed_on, unlock_for_both};
ghost use Rattle.race_draw.specs.Examples.{missing_to, at};

/// Nine goroutines have a column each, and all others share the tenth.
pub fn nine_have_columns()
    ensures ninth { column_of (goroutines 10) 8 ≡ 8 }
    ensures tenth { column_of (goroutines 10) 9 ≡ 9 }
    ensures last { column_of (goroutines 10) 200 ≡ 9 }
{}

/// Two edges of which one ends at the event where the other begins meet, and have lanes of their own; where one begins later,
/// they share one. An edge inside one event has none.
pub fn edges_that_meet_have_lanes_of_their_own()
    ensures meet { lanes_of (edge 0 0 1 2 ∷ edge 1 2 0 4 ∷ []) ≡ Some 10 ∷ Some 11 ∷ [] }
    ensures later { lanes_of (edge 0 0 1 2 ∷ edge 1 3 0 4 ∷ []) ≡ Some 10 ∷ Some 10 ∷ [] }
    ensures inside { lanes_of (edge 0 0 1 0 ∷ edge 1 2 0 4 ∷ []) ≡ None ∷ Some 10 ∷ [] }
{}

/// An edge that enters a goroutine leads on by what leaves it later, and by nothing that leaves it in the same event: an edge
/// enters an event at its end and leaves it at its begin.
pub fn edges_lead_on_by_later_ones()
    ensures same_event { kept over_a_receive ≡ over_a_receive }
    ensures later { kept handed_on ≡ edge 0 0 1 1 ∷ edge 1 2 2 3 ∷ [] }
{}

/// The arrow behind the first access leads to the goroutine of the second one, where its event has one there, or else where the
/// first one leads.
pub fn the_next_arrow_leads_to_the_second_access()
    ensures to_it { next_of unlock_for_both (missing_to 1) ≡ edge 0 2 1 4 ∷ [] }
    ensures elsewhere { next_of unlock_for_both (missing_to 3) ≡ edge 0 2 2 3 ∷ [] }
{}

/// A line has at most 100 columns: behind a blank in column 95 a word of four letters has room, and one of five has none.
pub fn a_line_has_a_hundred_columns()
    ensures five { folds (at 95) 32 (codes "aaaaa") ≡ true }
    ensures four { folds (at 95) 32 (codes "aaaa") ≡ false }
{}

/// A quote could end an attribute, and another text stands for it; a letter stands for itself.
#[tactic(auto, unfolding(crate::specs::Svg::escaped))]
pub fn quotes_do_not_stand_bare()
    ensures single { escaped 39 ≡ codes "&#39;" }
    ensures double { escaped 34 ≡ codes "&quot;" }
    ensures letter { escaped 97 ≡ codes "a" }
{}
