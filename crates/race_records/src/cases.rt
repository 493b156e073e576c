//! The cases of a select.
ghost use Rattle.std.specs.Prelude.{◌≡◌, ◌<◌, ◌≤◌, ◌↔◌, [], ◌∷◌, ◌++◌, length, IsTrue, IfSome, Some, slice_get, IsErr};
ghost use Rattle.std.specs.Prelude.{OnOk, OnErr};
ghost use Rattle.race_records.specs.Operands.{KeepsRange};
ghost use Rattle.race_records.specs.Cases as spec;

use std::marker::Model;
use thiserror::Error;

/// The most cases of a select.
pub const MAX_CASES: usize = 16;

// Definitions cite this number, so it is written down twice.
const _: () = prove!(MAX_CASES == 16);

// Kept of each number from it on: no channel has one of these.
const BEYOND: u16 = 65_535;

/// What a case of a select would do with its channel.
#[derive(Clone, Copy, Debug, PartialEq, Eq)]
pub enum Dir {
    /// Send on it.
    Send,
    /// Receive from it.
    Recv,
}

/// One case of a select.
#[derive(Clone, Copy, Debug, PartialEq, Eq)]
pub struct Case {
    /// What it would do.
    pub dir: Dir,
    /// The number of its channel; `None` where the channel is nil.
    pub chan: Option<u32>,
}

/// There are as many cases as a select can have.
#[derive(Clone, Copy, Debug, PartialEq, Eq, Error)]
#[error("there are too many cases")]
pub struct CasesFull;

/// The cases of a select in order, at most 16. They lie in place, so that an event stays small: of a channel's number that no
/// declaration can have they keep that there is one.
#[derive(Debug, Drop)]
pub struct Cases {
    // The number of each case's channel, at most `BEYOND`. What stands behind the last case says nothing.
    chans: [u16; MAX_CASES],
    // Bit k is set where case k sends.
    sends: u16,
    // Bit k is set where the channel of case k is nil; its number says nothing then.
    nils: u16,
    // How many cases there are. An `ArrayVec` would count them in eight bytes.
    count: u16,
}

impl Model for Cases {
    ghost use Rattle.std.specs.Prelude.{◌<◌, ◌≤◌, ◌^◌, List, take};
    ghost use Rattle.race_records.specs.{declared.cases.Case.Case, Cases.cases_of};

    ghost Value = { List Case };

    ghost view = { λ c. cases_of (take c.count c.chans) c.sends c.nils };

    ghost invariant = { λ c. (c.count ≤ 16) × (c.sends < 2 ^ c.count) × (c.nils < 2 ^ c.count) };
}

impl Cases {
    /// No case.
    pub fn new() -> Cases
        ensures { result ≡ [] }
    {
        Cases {
            chans: [0; MAX_CASES],
            sends: 0,
            nils: 0,
            count: 0,
        }
    }

    /// The same cases.
    #[tactic(auto, using(crate::proofs::CaseLemmas::cases_len))]
    pub fn copy(&self) -> Cases
        ensures same { result ≡ self.now }
        ensures few { length self.now ≤ MAX_CASES }
    {
        Cases {
            chans: self.chans,
            sends: self.sends,
            nils: self.nils,
            count: self.count,
        }
    }

    /// How many cases there are.
    #[tactic(auto, using(crate::proofs::CaseLemmas::cases_len))]
    pub fn len(&self) -> usize
        ensures len { result ≡ length self.now }
        ensures few { result ≤ MAX_CASES }
    {
        self.count as usize
    }

    /// Whether there is none.
    pub fn is_empty(&self) -> bool
        ensures { IsTrue result ↔ (self.now ≡ []) }
    {
        self.len() == 0
    }

    /// Case `k`, counted from 0.
    #[tactic(auto, using(crate::proofs::CaseLemmas::cases_len))]
    pub fn get(&self, k: usize) -> Case
        requires { k < length self.now }
        ensures { slice_get self.now k ≡ Some result }
    {
        case_in(&self.chans[..self.len()], self.sends, self.nils, k)
    }

    /// Puts a case last. Of a channel's number from 65,535 on, which no channel has, it keeps 65,535. Refused where there are 16;
    /// then the list stays as it was.
    pub fn push(&mut self, case: Case) -> Result<(), CasesFull>
        ensures full { IsErr result ↔ (MAX_CASES ≤ length self.old) }
        ensures pushed { OnOk result (self.new ≡ self.old ++ spec.kept case ∷ []) }
        ensures whole { IfSome case.chan (λ c. c < 65_535) → OnOk result (self.new ≡ self.old ++ case ∷ []) }
        ensures err { OnErr result (self.new ≡ self.old) }
    {
        if self.len() == MAX_CASES {
            return Err(CasesFull);
        }
        let (bit, nil, number) = numbers_of(case);
        self.chans[self.len()] = number;
        self.sends += bit << self.count;
        self.nils += nil << self.count;
        self.count += 1;
        Ok(())
    }
}

/// Equal where the cases are, in order.
impl PartialEq for Cases {
    ghost use Rattle.std.specs.Prelude.{◌≡◌, ◌↔◌, IsTrue};
    ghost use Rattle.race_records.specs.Cases.{same_cases, same_cases_laws};

    ghost eq = { same_cases };

    ghost laws = { same_cases_laws };

    fn eq(&self, other: &Cases) -> bool
        ensures eq { result ≡ same_cases self.now other.now }
        ensures same { IsTrue result ↔ (self.now ≡ other.now) }
    {
        are_same(self, other)
    }
}

impl Eq for Cases {
    ghost use Rattle.race_records.specs.Cases.{same_cases_equivalence};

    ghost laws = { same_cases_equivalence };
}

// Whether the cases are the same, in the same order.
fn are_same(cases: &Cases, others: &Cases) -> bool
    ensures { IsTrue result ↔ (cases.now ≡ others.now) }
{
    if cases.len() != others.len() {
        return false;
    }
    for k in 0..cases.len() {
        if !is_same(cases.get(k), others.get(k)) {
            return false;
        }
    }
    true
}

fn is_same(case: Case, other: Case) -> bool
    ensures { IsTrue result ↔ (case ≡ other) }
{
    case == other
}

/// A channel's number is out of range exactly where what a list of cases keeps of it is.
pub fn cases_keep_their_range()
    ensures { KeepsRange }
{}

// Case `k` of those that the numbers stand for.
fn case_in(numbers: &[u16], sends: u16, nils: u16, k: usize) -> Case
    requires within { k < length numbers.now }
    requires few { length numbers.now ≤ 16 }
    ensures { slice_get (spec.cases_of numbers.now sends nils) k ≡ Some result }
{
    Case {
        dir: dir_of((sends >> k) % 2),
        chan: chan_of((nils >> k) % 2, numbers[k]),
    }
}

// What a case of this bit would do.
fn dir_of(bit: u16) -> Dir
    ensures { result ≡ spec.dir_of bit }
{
    if bit == 1 { Dir::Send } else { Dir::Recv }
}

// The channel that the number stands for, which is nil where the bit is 1.
fn chan_of(nil: u16, number: u16) -> Option<u32>
    ensures { result ≡ spec.chan_of nil number }
{
    if nil == 1 { None } else { Some(number as u32) }
}

// The bits and the number that stand for what is kept of the case.
fn numbers_of(case: Case) -> (u16, u16, u16)
    ensures bit { result.0 < 2 }
    ensures nil { result.1 < 2 }
    ensures case { spec.case_of result.0 result.1 result.2 ≡ spec.kept case }
{
    let bit = match case.dir {
        Dir::Send => 1,
        Dir::Recv => 0,
    };
    match case.chan {
        None => (bit, 1, 0),
        Some(chan) => (bit, 0, kept_number(chan)),
    }
}

// What is kept of a channel's number.
fn kept_number(chan: u32) -> u16
    ensures { result ≡ spec.kept_number chan }
{
    if chan < BEYOND as u32 {
        chan as u16
    } else {
        BEYOND
    }
}
