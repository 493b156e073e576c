//! The first line, which says the version of the text.
ghost use Rattle.std.specs.Prelude.{◌≡◌};
ghost use Rattle.race_text.specs.Text.{ended, header};
ghost use Rattle.race_text.specs.Fault as spec;

use race_records::Version;

// The version that the first line says, where it is a header.
pub(crate) fn version_said(line: &[u8]) -> Option<Version>
    ensures { result ≡ spec.version_said line.now }
{
    if line == b"gotrace 1".as_slice() {
        return Some(Version::One);
    }
    if line == b"gotrace 2".as_slice() {
        return Some(Version::Two);
    }
    None
}

// The header of the version, with its newline.
pub(crate) fn header_line(version: Version) -> &'static [u8]
    ensures { result.now ≡ ended (header version) }
{
    match version {
        Version::One => b"gotrace 1\n",
        Version::Two => b"gotrace 2\n",
    }
}
