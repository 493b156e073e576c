ghost use Rattle.std.specs.Prelude.{◌≤◌};

use race_hub::{Board, Choice, pick_choice};

// So many requests with one branch each. Those at even places meet those at odd ones, or each goes on alone.
#[derive(Drop)]
struct Crowd {
    waiting: u32,
    pairs: bool,
    ghost few: { waiting ≤ 1024 },
}

impl Board for Crowd {
    ghost use Rattle.std.specs.Prelude.{if◌then◌else◌, ◌==◌, ◌%◌, ◌&&◌, nat_lt};

    ghost size = { λ c. c.waiting };

    ghost branches_at = { λ _ _. 1 };

    ghost admitted = { λ c t. if c.pairs then ((t.place % 2 == 0) && (nat_lt 0 t.partner && (t.partner % 2 == 0))) else (t.partner == 0) };

    fn len(&self) -> u32 {
        self.waiting
    }

    fn branches(&self, _place: u32) -> u32 {
        1
    }

    fn next_partner(&self, place: u32, _branch: u32, from: u32) -> u32 {
        if self.pairs && place % 2 == 0 {
            from
        } else {
            from.max(self.waiting)
        }
    }

    fn is_stuck(&self, place: u32) -> bool {
        self.pairs && place % 2 == 1
    }

    fn admits(&self, choice: Choice) -> bool {
        if self.pairs {
            choice.place % 2 == 0 && choice.partner > 0 && choice.partner % 2 == 0
        } else {
            choice.partner == 0
        }
    }
}

fn meet(place: u32, partner: u32) -> Option<Choice> {
    Some(Choice {
        place,
        offer: 0,
        partner,
        partner_offer: 1,
    })
}

// A pick of four requests, and the places of the two that meet by it, the second plus 1.
static PICKS: [(u64, u32, u32); 5] = [(0, 0, 2), (1, 0, 4), (2, 2, 2), (3, 2, 4), (4, 0, 2)];

// Whether the pick of the four makes this choice.
fn is_picked(pick: u64, choice: Option<Choice>) -> bool {
    let crowd = Crowd {
        waiting: 4,
        pairs: true,
    };
    pick_choice(&crowd, pick) == choice
}

fn is_nobody_picked() -> bool {
    let nobody = Crowd {
        waiting: 0,
        pairs: false,
    };
    pick_choice(&nobody, 7).is_none()
}

#[test]
fn picks_go_round_the_choices_in_order(rt: HostRuntime) {
    for &(pick, place, partner) in &PICKS {
        assert!(rt; is_picked(pick, meet(place, partner)), "pick {pick}");
    }
    assert!(rt; is_nobody_picked());
}
