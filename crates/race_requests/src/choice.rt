//! One way in which a run can go on.

/// A waiting request with one of its branches, alone or with the partner that it meets.
#[derive(Clone, Copy, Debug, PartialEq, Eq)]
pub struct Choice {
    /// The place of the request in the waiting list.
    pub place: u32,
    /// Which of its branches is taken, counted from 0.
    pub offer: u32,
    /// The partner's place plus 1, or 0 where it meets nobody.
    pub partner: u32,
    /// The partner's branch plus 1, or 0.
    pub partner_offer: u32,
}
