//! Finds a choice by its number, without a list of the choices.
//!
//! All tuples of requests and branches are gone through in lexicographic order, and those that are admitted are counted. What is
//! admitted the caller tells, so that nothing here knows of channels but one thing: where the next partner may be.
ghost use Rattle.std.specs.Prelude.{◌≡◌, ◌<◌, ◌≤◌, ◌%◌, ◌∷◌, [], length, filter, flat_map, slice_get};
ghost use Rattle.race_requests.specs.{Choices.{below, choice, with_partner, of_branch, tuples}, Search.{IsFound, picked}};

use crate::Choice;
use race_records::MAX_GOROUTINES;

/// The choice that was looked for, or how many of the choices behind were still to be passed by.
#[derive(Clone, Copy, PartialEq, Eq)]
pub enum Found {
    /// This is the one.
    At(Choice),
    /// There were too few by so many and one.
    Left(u64),
}

/// Requests that wait, each with its branches, and which tuples of them are choices.
pub trait Board {
    ghost use Rattle.std.specs.Prelude.{ℕ, ◌≡◌, ◌+◌, ◌<◌, ◌≤◌, Bool, false, IsTrue};
    ghost use Rattle.race_records.specs.declared.kind.TheConstants.{MAX_GOROUTINES};
    ghost use Rattle.race_requests.specs.{declared.choice.Choice.Choice, Choices.choice};

    ghost size: { Self → ℕ };

    ghost branches_at: { Self → ℕ → ℕ };

    ghost admitted: { Self → Choice → Bool };

    /// How many requests wait.
    fn len(&self) -> u32
        ensures len { result ≡ size self.now }
        ensures few { result ≤ MAX_GOROUTINES }
        ensures few_branches { (i : ℕ) → branches_at self.now i ≤ 17 };

    /// How many branches the request at this place has: at most 16 offers and a default.
    fn branches(&self, place: u32) -> u32
        requires { place < size self.now }
        ensures { result ≡ branches_at self.now place };

    /// The place, `from` or a later one, where the next partner of the request by this branch may stand: none stands from `from`
    /// up to just before it. So `len` or more says that there is none from `from` on.
    fn next_partner(&self, place: u32, branch: u32, from: u32) -> u32
        requires { place < size self.now }
        ensures onward { from ≤ result }
        ensures passed { (p : ℕ) → from ≤ p → p < result → (q : ℕ) → admitted self.now (choice place branch (p + 1) (q + 1)) ≡ false };

    /// Whether the request at this place has no choice by any of its branches, where that is told at once; false tells nothing.
    fn is_stuck(&self, place: u32) -> bool
        requires { place < size self.now }
        ensures alone { IsTrue result → (branch : ℕ) → admitted self.now (choice place branch 0 0) ≡ false }
        ensures meets { IsTrue result → (branch p q : ℕ) → admitted self.now (choice place branch (p + 1) (q + 1)) ≡ false };

    /// Whether the tuple is a choice.
    fn admits(&self, choice: Choice) -> bool
        ensures { result ≡ admitted self.now choice };
}

// The tuple alone.
#[inline(always)]
fn one<B: Board>(board: &B, tuple: Choice, skip: u64) -> Found
    ensures { IsFound (filter (B.admitted board.now) (tuple ∷ [])) skip result }
{
    if !board.admits(tuple) {
        return Found::Left(skip);
    }
    if skip == 0 {
        return Found::At(tuple);
    }
    Found::Left(skip - 1)
}

// The request by its branch, with each branch of the partner.
#[inline(always)]
fn with_each_branch<B: Board>(board: &B, place: u32, branch: u32, partner: u32, skip: u64) -> Found
    requires partner { partner < B.size board.now }
    requires few { B.size board.now ≤ MAX_GOROUTINES }
    ensures { IsFound (filter (B.admitted board.now) (with_partner (B.branches_at board.now) place branch partner)) skip result }
{
    let mut left = skip;
    for other in 0..board.branches(partner) {
        let tuple = Choice {
            place,
            offer: branch,
            partner: partner + 1,
            partner_offer: other + 1,
        };
        match one(board, tuple, left) {
            Found::At(choice) => return Found::At(choice),
            Found::Left(rest) => left = rest,
        }
    }
    Found::Left(left)
}

// The request by its branch, with each partner.
#[inline(always)]
fn with_each_partner<B: Board>(board: &B, place: u32, branch: u32, skip: u64) -> Found
    requires { place < B.size board.now }
    ensures { IsFound (filter (B.admitted board.now)
        (flat_map (with_partner (B.branches_at board.now) place branch) (below (B.size board.now)))) skip result }
{
    let count = board.len();
    let mut left = skip;
    let mut from = 0;
    while from < count {
        // Most requests meet nobody: trying all partners of each would take the square of the list's length.
        let partner = board.next_partner(place, branch, from);
        if partner >= count {
            return Found::Left(left);
        }
        match with_each_branch(board, place, branch, partner, left) {
            Found::At(choice) => return Found::At(choice),
            Found::Left(rest) => left = rest,
        }
        from = partner + 1;
    }
    Found::Left(left)
}

// The request by its branch, alone and then with each partner.
#[inline(always)]
fn by_branch<B: Board>(board: &B, place: u32, branch: u32, skip: u64) -> Found
    requires { place < B.size board.now }
    ensures { IsFound (filter (B.admitted board.now)
        (of_branch (B.size board.now) (B.branches_at board.now) place branch)) skip result }
{
    let alone = Choice {
        place,
        offer: branch,
        partner: 0,
        partner_offer: 0,
    };
    match one(board, alone, skip) {
        Found::At(choice) => Found::At(choice),
        Found::Left(left) => with_each_partner(board, place, branch, left),
    }
}

// The request by each of its branches.
#[inline(always)]
fn by_request<B: Board>(board: &B, place: u32, skip: u64) -> Found
    requires { place < B.size board.now }
    ensures { IsFound (filter (B.admitted board.now)
        (flat_map (of_branch (B.size board.now) (B.branches_at board.now) place) (below (B.branches_at board.now place)))) skip result }
{
    // Most requests wait for what others do, and cost no more than this.
    if board.is_stuck(place) {
        return Found::Left(skip);
    }
    let mut left = skip;
    for branch in 0..board.branches(place) {
        match by_branch(board, place, branch, left) {
            Found::At(choice) => return Found::At(choice),
            Found::Left(rest) => left = rest,
        }
    }
    Found::Left(left)
}

/// `Found::At` with choice number `skip`, counted from 0; or `Found::Left` with `skip` less the count of choices, where `skip`
/// isn't below that count. Takes no memory.
pub fn find<B: Board>(board: &B, skip: u64) -> Found
    ensures { IsFound (filter (B.admitted board.now) (tuples (B.size board.now) (B.branches_at board.now))) skip result }
{
    let mut left = skip;
    for place in 0..board.len() {
        match by_request(board, place, left) {
            Found::At(choice) => return Found::At(choice),
            Found::Left(rest) => left = rest,
        }
    }
    Found::Left(left)
}

/// The choice number `pick`, modulo the count of choices, if there is one. Takes no memory.
pub fn pick_choice<B: Board>(board: &B, pick: u64) -> Option<Choice>
    ensures { result ≡ picked pick (filter (B.admitted board.now) (tuples (B.size board.now) (B.branches_at board.now))) }
{
    // A number behind the last choice tells by how much, and so how many there are.
    let rest = match find(board, pick) {
        Found::At(choice) => return Some(choice),
        Found::Left(rest) => rest,
    };
    let count = pick - rest;
    if count == 0 {
        return None;
    }
    let Found::At(choice) = find(board, pick % count) else {
        return None;
    };
    Some(choice)
}
