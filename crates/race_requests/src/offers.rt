//! The offers of a select.
ghost use Rattle.std.specs.Prelude.{◌≡◌, ◌<◌, ◌≤◌, ◌↔◌, [], ◌∷◌, ◌++◌, length, map, slice_get, IsTrue, IfSome, Some};
ghost use Rattle.std.specs.Prelude.{IsErr, OnOk, OnErr};
ghost use Rattle.race_records.specs.declared.cases.TheConstants.{MAX_CASES};
ghost use Rattle.race_requests.specs.{Offers.{case_of, chan_of}, Possible.KeepsRange};
ghost use Rattle.race_requests.specs.Offers as spec;

use crate::Offer;
use race_records::{Case, Cases, Dir, MAX_CASES};
use std::marker::Model;
use thiserror::Error;

/// There are as many offers as a select can have.
#[derive(Clone, Copy, Debug, PartialEq, Eq, Error)]
#[error("there are too many offers")]
pub struct OffersFull;

/// The offers of a select in order, at most 16. They lie in place, so that a request is copied without memory.
#[derive(Debug, Drop)]
pub struct Offers {
    // What each would do, with which channel.
    cases: Cases,
    // What each that sends would send.
    values: [u64; MAX_CASES],
}

impl Model for Offers {
    ghost use Rattle.std.specs.Prelude.{List, ◌≡◌, ◌≤◌, length};
    ghost use Rattle.race_requests.specs.{declared.request.Offer.Offer, Offers.offers_with};

    ghost Value = { List Offer };

    ghost view = { λ o. offers_with o.cases o.values };

    ghost invariant = { λ o. (length o.cases ≤ 16) × (length o.values ≡ 16) };
}

impl Offers {
    /// No offer.
    pub fn new() -> Offers
        ensures { result ≡ [] }
    {
        Offers {
            cases: Cases::new(),
            values: [0; MAX_CASES],
        }
    }

    /// The same offers.
    pub fn copy(&self) -> Offers
        ensures { result ≡ self.now }
    {
        Offers {
            cases: self.cases.copy(),
            values: self.values,
        }
    }

    /// How many offers there are.
    pub fn len(&self) -> usize
        ensures len { result ≡ length self.now }
        ensures few { result ≤ MAX_CASES }
    {
        self.cases.len()
    }

    /// Whether there is none.
    pub fn is_empty(&self) -> bool
        ensures { IsTrue result ↔ (self.now ≡ []) }
    {
        self.len() == 0
    }

    /// Offer `k`, counted from 0.
    pub fn get(&self, k: usize) -> Offer
        requires { k < length self.now }
        ensures { slice_get self.now k ≡ Some result }
    {
        offer_of(self.cases.get(k), self.values[k])
    }

    /// What each would do, as the cases of a select that takes its default.
    pub fn cases(&self) -> Cases
        ensures { result ≡ map case_of self.now }
    {
        self.cases.copy()
    }

    /// Puts an offer last. Of a channel's number from 65,535 on, which no channel has, it keeps 65,535. Refused where there are 16;
    /// then the list stays as it was.
    pub fn push(&mut self, offer: Offer) -> Result<(), OffersFull>
        ensures full { IsErr result ↔ (MAX_CASES ≤ length self.old) }
        ensures pushed { OnOk result (self.new ≡ self.old ++ spec.kept offer ∷ []) }
        ensures whole { IfSome (chan_of offer) (λ c. c < 65_535) → OnOk result (self.new ≡ self.old ++ offer ∷ []) }
        ensures err { OnErr result (self.new ≡ self.old) }
    {
        let at = self.len();
        let (case, value) = parts_of(offer);
        let Ok(()) = self.cases.push(case) else {
            return Err(OffersFull);
        };
        self.values[at] = value;
        Ok(())
    }
}

/// Equal where the offers are, in order.
impl PartialEq for Offers {
    ghost use Rattle.std.specs.Prelude.{◌≡◌, ◌↔◌, IsTrue};
    ghost use Rattle.race_requests.specs.Offers.{same_offers, same_offers_laws};

    ghost eq = { same_offers };

    ghost laws = { same_offers_laws };

    fn eq(&self, other: &Offers) -> bool
        ensures eq { result ≡ same_offers self.now other.now }
        ensures same { IsTrue result ↔ (self.now ≡ other.now) }
    {
        are_same(self, other)
    }
}

impl Eq for Offers {
    ghost use Rattle.race_requests.specs.Offers.{same_offers_equivalence};

    ghost laws = { same_offers_equivalence };
}

// Whether the offers are the same, in the same order.
fn are_same(offers: &Offers, others: &Offers) -> bool
    ensures { IsTrue result ↔ (offers.now ≡ others.now) }
{
    if offers.len() != others.len() {
        return false;
    }
    for k in 0..offers.len() {
        if !is_same(offers.get(k), others.get(k)) {
            return false;
        }
    }
    true
}

fn is_same(offer: Offer, other: Offer) -> bool
    ensures { IsTrue result ↔ (offer ≡ other) }
{
    offer == other
}

/// A channel's number is out of range exactly where what a list of offers keeps of it is.
pub fn offers_keep_their_range()
    ensures { KeepsRange }
{}

// The offer of a case.
fn offer_of(case: Case, value: u64) -> Offer
    ensures { result ≡ spec.offer_of case value }
{
    match case.dir {
        Dir::Send => Offer::Send(case.chan, value),
        Dir::Recv => Offer::Recv(case.chan),
    }
}

// The case of an offer, and the value that it would send.
fn parts_of(offer: Offer) -> (Case, u64)
    ensures { spec.offer_of result.0 result.1 ≡ offer }
{
    match offer {
        Offer::Send(chan, value) => (
            Case {
                dir: Dir::Send,
                chan,
            },
            value,
        ),
        Offer::Recv(chan) => (
            Case {
                dir: Dir::Recv,
                chan,
            },
            0,
        ),
    }
}
