//! The first line, which says the version of the text.
ghost use Rattle.std.specs.Prelude.{◌≡◌};
ghost use Rattle.race_script.specs.Reading as spec;

use race_records::Version;

// The version that the first line says, where it is a header.
pub(crate) fn version_said(line: &[u8]) -> Option<Version>
    ensures { result ≡ spec.version_said line.now }
{
    if line == b"goprogram 1".as_slice() {
        return Some(Version::One);
    }
    if line == b"goprogram 2".as_slice() {
        return Some(Version::Two);
    }
    None
}
