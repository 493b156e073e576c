//! Where a variable or an end stands that some run had before.
ghost use Rattle.std.specs.Prelude.{◌≡◌, Decides, None, IfSome};
ghost use Rattle.race_explore.specs.{Ends.IsOfEnd, Told.{IsOn, StandsAt, StandsNowhere}};

use crate::explored::RacyVariable;
use crate::stuck::{BadEnd, Standing};
use race_hub::End;
use std::alloc::Allocator;

/// Where the variable stands.
pub(crate) fn place_of<A: Allocator>(racy: &[RacyVariable<A>], var: u32) -> Option<usize>
    ensures found { IfSome result (λ k. StandsAt (IsOn var) racy.now k) }
    ensures none { result ≡ None → StandsNowhere (IsOn var) racy.now }
{
    for place in 0..racy.len() {
        if racy[place].race.var == var {
            return Some(place);
        }
    }
    None
}

/// Where this end stands.
pub(crate) fn place_of_end<A: Allocator>(
    bad: &[BadEnd<A>],
    end: End,
    standing: &[Standing],
) -> Option<usize>
    ensures found { IfSome result (λ k. StandsAt (IsOfEnd end standing.now) bad.now k) }
    ensures none { result ≡ None → StandsNowhere (IsOfEnd end standing.now) bad.now }
{
    for place in 0..bad.len() {
        if is_of_end(&bad[place], end, standing) {
            return Some(place);
        }
    }
    None
}

// Whether that is reported of this end.
fn is_of_end<A: Allocator>(bad: &BadEnd<A>, end: End, standing: &[Standing]) -> bool
    ensures { Decides result (IsOfEnd end standing.now bad.now) }
{
    is_same_end(bad.end, end) && bad.standing.as_slice() == standing
}

fn is_same_end(this: End, that: End) -> bool
    ensures { Decides result (this ≡ that) }
{
    this == that
}
