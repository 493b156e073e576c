//! The versions of texts.
ghost use Rattle.std.specs.Prelude.{◌≡◌};
ghost use Rattle.race_records.specs.Operands as spec;
ghost use Rattle.race_records.specs.Equality.{same_version};

use crate::OpKeyword;

/// The version of a trace's or a program's text, which says what operations it may have.
#[derive(Clone, Copy, Debug, PartialEq, Eq)]
pub enum Version {
    /// The first one.
    One,
    /// With tries to lock.
    Two,
}

impl Version {
    /// Whether the version has the word.
    pub fn has(self, keyword: OpKeyword) -> bool
        ensures { result ≡ spec.has_op_keyword self keyword }
    {
        match (self, keyword.since()) {
            (Version::One, Version::Two) => false,
            (Version::One, Version::One) => true,
            (Version::Two, _) => true,
        }
    }

    pub(crate) fn is_same(self, other: Version) -> bool
        ensures { result ≡ same_version self other }
    {
        self == other
    }
}
