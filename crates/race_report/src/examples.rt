//! The texts of some rules, and beside each what it isn't. Each function does nothing, and its contract is the example.
ghost use Rattle.std.specs.Prelude.{◌≡◌, ◌≢◌, [], codes};
ghost use Rattle.race_report.specs.Rules.{rule_text};

/// Rule 13 is of a lock that is held, and rule 14 of one that is held for reading; rules 15 and 16 are of locks that aren't.
pub fn held_and_read_held_are_told_apart()
    ensures held { rule_text 13 ≡ codes "held" }
    ensures read_held { rule_text 14 ≡ codes "read held" }
    ensures not_held { rule_text 15 ≡ codes "not held" }
    ensures not_read_held { rule_text 16 ≡ codes "not read held" }
    ensures apart { rule_text 13 ≢ rule_text 14 }
{}

/// The first rule and the last one have a text, and no other number has.
pub fn there_are_23_rules()
    ensures first { rule_text 1 ≡ codes "after end" }
    ensures last { rule_text 23 ≡ codes "no fault" }
    ensures none { rule_text 24 ≡ [] }
{}
