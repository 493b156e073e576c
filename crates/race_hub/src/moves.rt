//! How a choice moves goroutines from list to list. Room is made first, so that nothing behind that takes memory.
ghost use Rattle.std.specs.Prelude.{ℕ, ◌≡◌, ◌≢◌, ◌==◌, true, false, ◌<◌, ◌≤◌, ◌+◌, ◌++◌, Some, length, slice_get};
ghost use Rattle.std.specs.{Prelude.{vec_len, vec_capacity, if◌then◌else◌, IfSome, OnOk}, List.{list_any, position_or_len}};
ghost use Rattle.race_hub.specs.{Logs.with_step, Submits.without_first, Fires.{without, partner_of, is_asker, goes_on}};
ghost use Rattle.race_hub.specs.{Fires.{without_leaver, begins}, Firing.HasPlace};

use crate::logs::Logs;
use crate::{Answer, Choice, Waiter};
use std::alloc::{AllocError, Allocator};

/// Makes room for three more who are ready, and for the turns of all of them.
#[inline(always)]
pub(crate) fn make_room<A: Allocator>(
    ready: &mut Vec<(u32, Answer), A>,
    out: &mut Vec<u32, A>,
) -> Result<(), AllocError>
    ensures ready { ready.new.items ≡ ready.old.items }
    ensures out { out.new.items ≡ out.old.items }
    ensures kept { vec_len ready.old + vec_len out.old ≤ vec_capacity out.old → vec_len ready.new + vec_len out.new ≤ vec_capacity out.new }
    ensures jobs { OnOk result (vec_len ready.new + 3 ≤ vec_capacity ready.new) }
    ensures turns { OnOk result (vec_len ready.new + 3 + vec_len out.new ≤ vec_capacity out.new) }
{
    ready.reserve(3)?;
    out.reserve(ready.len() + 3)?;
    Ok(())
}

/// Takes what stands at the choice's places out of the list.
#[inline(always)]
pub(crate) fn take_out<X, A: Allocator>(list: &mut Vec<X, A>, choice: Choice) -> (X, Option<X>)
    requires place { choice.place < vec_len list.old }
    requires partner { choice.partner ≤ vec_len list.old }
    requires apart { choice.partner ≢ choice.place + 1 }
    ensures list { list.new.items ≡ without choice list.old.items }
    ensures first { slice_get list.old.items choice.place ≡ Some result.0 }
    ensures second { partner_of choice list.old.items ≡ result.1 }
{
    let place = choice.place as usize;
    if choice.partner == 0 {
        return (list.remove(place), None);
    }
    let partner = (choice.partner - 1) as usize;
    if place < partner {
        let second = list.remove(partner);
        let first = list.remove(place);
        return (first, Some(second));
    }
    let first = list.remove(place);
    let second = list.remove(partner);
    (first, Some(second))
}

/// Who waited is told this, and is ready with it; or it is told nothing, and its routine goes. Its log has the step.
#[inline(always)]
pub(crate) fn tell<R: Drop, A: Allocator>(
    routines: &mut Vec<Option<R>, A>,
    logs: &mut Logs<A>,
    ready: &mut Vec<(u32, Answer), A>,
    waiter: Option<Waiter>,
    told: Option<Answer>,
)
    requires place { IfSome waiter (λ w. HasPlace w.who routines.old.items logs.old.have_room) }
    requires ready { vec_len ready.old < vec_capacity ready.old }
    ensures routines { routines.new.items ≡ without_leaver waiter told routines.old.items }
    ensures logs { logs.new.logs ≡ with_step waiter told logs.old.logs }
    ensures others { (k : ℕ) → is_asker k waiter ≡ false → slice_get logs.new.have_room k ≡ slice_get logs.old.have_room k }
    ensures ready { ready.new.items ≡ ready.old.items ++ goes_on waiter told }
    ensures room { vec_capacity ready.new ≡ vec_capacity ready.old }
    ensures len { vec_len ready.new ≤ vec_len ready.old + 1 }
{
    let Some(waiter) = waiter else {
        return;
    };
    match told {
        Some(answer) => ready.push_reserved((waiter.who, answer)),
        None => routines[waiter.who as usize] = None,
    }
    logs.tell(waiter, told);
}

/// The goroutine of this number is ready to begin, where there is one.
#[inline(always)]
pub(crate) fn begin<A: Allocator>(ready: &mut Vec<(u32, Answer), A>, started: Option<u32>)
    requires { vec_len ready.old < vec_capacity ready.old }
    ensures ready { ready.new.items ≡ ready.old.items ++ begins started }
    ensures len { vec_len ready.new ≤ vec_len ready.old + 1 }
    ensures room { vec_capacity ready.new ≡ vec_capacity ready.old }
{
    if let Some(goroutine) = started {
        ready.push_reserved((goroutine, Answer::Begin));
    }
}

/// Whether the number is one of these.
#[inline(always)]
pub(crate) fn is_among(numbers: &[u32], number: u32) -> bool
    ensures { result ≡ list_any (λ n. n == number) numbers.now }
{
    for at in 0..numbers.len() {
        if numbers[at] == number {
            return true;
        }
    }
    false
}

// Where the number stands first.
#[inline(always)]
fn place_of(numbers: &[u32], number: u32) -> usize
    requires { list_any (λ n. n == number) numbers.now ≡ true }
    ensures place { result ≡ position_or_len (λ n. n == number) numbers.now }
    ensures within { result < length numbers.now }
{
    for at in 0..numbers.len() {
        if numbers[at] == number {
            return at;
        }
    }
    unreachable!();
}

/// Takes the first that is this number out of the list.
#[inline(always)]
pub(crate) fn take_first<A: Allocator>(numbers: &mut Vec<u32, A>, number: u32)
    requires { list_any (λ n. n == number) numbers.old.items ≡ true }
    ensures numbers { numbers.new.items ≡ without_first number numbers.old.items }
    ensures count { length numbers.new.items + 1 ≡ length numbers.old.items }
    ensures len { vec_len numbers.new + 1 ≡ vec_len numbers.old }
    ensures room { vec_capacity numbers.new ≡ vec_capacity numbers.old }
{
    let at = place_of(numbers.as_slice(), number);
    numbers.remove(at);
}

/// Whose request was bad, once this one's was or wasn't.
pub(crate) fn named(known: Option<u32>, bad: bool, who: u32) -> Option<u32>
    ensures { result ≡ (if bad then Some who else known) }
{
    if bad { Some(who) } else { known }
}
