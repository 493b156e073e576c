//! Where the waiting requests stand that may receive from a channel.
ghost use Rattle.std.specs.Prelude.{ℕ, ◌≡◌, ◌<◌, ◌≤◌, ◌+◌, length, true, Some};
ghost use Rattle.race_records.specs.declared.kind.TheConstants.{MAX_GOROUTINES};
ghost use Rattle.race_requests.specs.{declared.request.Offer.TheVariants.Recv, Waiting.receives};
ghost use Rattle.race_requests.specs.Receivers as spec;

use crate::meet::offer_at;
use crate::table::offer_count;
use crate::{Ask, Offer, Waiter};
use std::marker::Model;

// How many spans there are: that of a channel stands at the remainder of its number.
const SPANS: usize = 256;

/// For each channel a span of places, outside of which no request receives from it. The spans lie in place, and
/// channels may share one.
#[derive(Drop)]
pub struct Receivers {
    firsts: [u16; SPANS],
    // One more than the last place; 0 where there is none.
    ends: [u16; SPANS],
}

impl Model for Receivers {
    ghost use Rattle.race_requests.specs.Receivers.{Spans};

    ghost Value = { Spans };

    ghost view = { λ r. record { firsts = r.firsts; ends = r.ends } };
}

impl Receivers {
    // Those of these requests.
    #[inline(always)]
    pub(crate) fn of(waiting: &[Waiter]) -> Receivers
        requires { length waiting.now ≤ MAX_GOROUTINES }
        ensures { spec.AreInSpans waiting.now result }
    {
        let mut receivers = Receivers::none();
        for place in 0..waiting.len() {
            receivers.mark_offers(&waiting[place].asked.ask, place as u16);
        }
        receivers
    }

    // No receiver.
    #[inline(always)]
    fn none() -> Receivers
        ensures { spec.ReachTo result 0 0 }
    {
        Receivers {
            firsts: [0; SPANS],
            ends: [0; SPANS],
        }
    }

    // The first place of the channel's span.
    #[inline(always)]
    pub(crate) fn first(&self, chan: u32) -> u32
        ensures { result ≡ spec.first_of self.now chan }
    {
        u32::from(self.firsts[chan as usize % SPANS])
    }

    // One more than its last place.
    #[inline(always)]
    pub(crate) fn end(&self, chan: u32) -> u32
        ensures { result ≡ spec.end_of self.now chan }
    {
        u32::from(self.ends[chan as usize % SPANS])
    }

    // Stretches the span of each channel from which who asks may receive up to its place, behind which none reaches yet.
    #[inline(always)]
    fn mark_offers(&mut self, ask: &Ask, place: u16)
        requires few { place < MAX_GOROUTINES }
        requires last { spec.ReachTo self.old place (place + 1) }
        ensures marked { (chan : ℕ) → receives chan ask.now ≡ true → spec.IsInSpan self.new chan place }
        ensures kept { (other i : ℕ) → spec.IsInSpan self.old other i → spec.IsInSpan self.new other i }
        ensures last { spec.ReachTo self.new place (place + 1) }
    {
        for branch in 0..offer_count(ask) {
            self.mark_offer(offer_at(ask, branch), place);
        }
    }

    // Stretches the span of the channel from which the offer may receive.
    #[inline(always)]
    fn mark_offer(&mut self, offer: Option<Offer>, place: u16)
        requires few { place < MAX_GOROUTINES }
        requires last { spec.ReachTo self.old place (place + 1) }
        ensures marked { (chan : ℕ) → offer ≡ Some (Recv (Some chan)) → spec.IsInSpan self.new chan place }
        ensures kept { (other i : ℕ) → spec.IsInSpan self.old other i → spec.IsInSpan self.new other i }
        ensures last { spec.ReachTo self.new place (place + 1) }
    {
        if let Some(Offer::Recv(Some(chan))) = offer {
            self.mark(chan, place);
        }
    }

    // Stretches the span of the channel up to the place.
    #[inline(always)]
    fn mark(&mut self, chan: u32, place: u16)
        requires few { place < MAX_GOROUTINES }
        requires last { spec.ReachTo self.old place (place + 1) }
        ensures marked { spec.IsInSpan self.new chan place }
        ensures kept { (other i : ℕ) → spec.IsInSpan self.old other i → spec.IsInSpan self.new other i }
        ensures last { spec.ReachTo self.new place (place + 1) }
    {
        let at = chan as usize % SPANS;
        if self.ends[at] == 0 {
            self.firsts[at] = place;
        }
        self.ends[at] = place + 1;
    }
}
