//! Which words are names, and which are places in a source.
ghost use Rattle.std.specs.{Prelude.{◌≡◌, ◌<◌, ◌≤◌, true}, List.list_all};
ghost use Rattle.race_records.specs.Name as spec;

/// The most bytes of a name.
pub const MAX_NAME_LEN: usize = 64;

/// The most bytes of a place.
pub const MAX_PLACE_LEN: usize = 128;

// Definitions cite these numbers, so each is written down twice.
const _: () = prove!(MAX_NAME_LEN == 64 && MAX_PLACE_LEN == 128);

/// Whether the word is a name: 1 to 64 ASCII letters, digits and `_`, and not `nil`.
pub fn is_name(word: &[u8]) -> bool
    ensures { result ≡ spec.is_name word.now }
{
    if word.is_empty() || word.len() > MAX_NAME_LEN || word == b"nil".as_slice() {
        return false;
    }
    all_name_bytes(word)
}

/// Whether the word is a place: 1 to 128 bytes 0x21 to 0x7E.
pub fn is_place(word: &[u8]) -> bool
    ensures { result ≡ spec.is_place word.now }
{
    if word.is_empty() || word.len() > MAX_PLACE_LEN {
        return false;
    }
    all_place_bytes(word)
}

/// Bytes that can be seen, as text.
#[inline(always)]
pub fn as_text(word: &[u8]) -> &str
    requires { list_all spec.is_place_byte word.now ≡ true }
    ensures { result.now ≡ word.now }
{
    unsafe { std::str::from_utf8_unchecked(word) }
}

fn all_name_bytes(word: &[u8]) -> bool
    ensures { result ≡ list_all spec.is_name_byte word.now }
{
    word.iter().all(|byte| is_name_byte(*byte))
}

fn all_place_bytes(word: &[u8]) -> bool
    ensures { result ≡ list_all spec.is_place_byte word.now }
{
    word.iter().all(|byte| is_place_byte(*byte))
}

fn is_name_byte(byte: u8) -> bool
    ensures { result ≡ spec.is_name_byte byte }
{
    byte.is_ascii_alphanumeric() || byte == b'_'
}

fn is_place_byte(byte: u8) -> bool
    ensures { result ≡ spec.is_place_byte byte }
{
    b'!' <= byte && byte <= b'~'
}
