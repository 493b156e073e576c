//! Numbers in a text.
ghost use Rattle.std.specs.Prelude.{◌≡◌, ◌+◌, ◌-◌, ◌*◌, ◌^◌, ◌<◌, ℕ, None, length, IfNone, IfSome, SomeIff};
ghost use Rattle.std.specs.{Int.IsInRange, Str.Parse.{AllDigits, digits_value}};
ghost use Rattle.race_text.specs.Words as spec;

/// Reads a number: `0`, or digits without a leading zero, of at most `max`.
#[inline(always)]
pub fn read_number(word: &[u8], max: u64) -> Option<u64>
    ensures { result ≡ spec.number max word.now }
{
    if word.is_empty() {
        return None;
    }
    if word[0] == b'0' && word.len() > 1 {
        return None;
    }
    let value = digits_in(word)?;
    if value <= max { Some(value) } else { None }
}

// What the digits say. Nothing where a byte is none, or the number too great for any limit.
#[inline(always)]
fn digits_in(word: &[u8]) -> Option<u64>
    ensures digits { IfSome result (λ value. AllDigits 10 word.now × (value ≡ digits_value 10 word.now)) }
    ensures other { IfNone result ((max : ℕ) → max < 2 ^ 64 → spec.number max word.now ≡ None) }
{
    if word.len() < 20 {
        few_digits(word)
    } else {
        many_digits(word)
    }
}

// The same of so few that no number of them is too great. Two are read at a time.
#[inline(always)]
fn few_digits(word: &[u8]) -> Option<u64>
    requires { length word.now < 20 }
    ensures digits { IfSome result (λ value. AllDigits 10 word.now × (value ≡ digits_value 10 word.now)) }
    ensures other { IfNone result ((max : ℕ) → max < 2 ^ 64 → spec.number max word.now ≡ None) }
{
    let mut value = 0;
    let mut at = 0;
    while word.len() - at >= 2 {
        let first = digit_of(word[at])?;
        let second = digit_of(word[at + 1])?;
        value = value * 100 + (first * 10 + second);
        at += 2;
    }
    if at == word.len() {
        return Some(value);
    }
    let last = digit_of(word[at])?;
    Some(value * 10 + last)
}

// The same of any, which is tested at each digit.
#[cold]
#[inline(never)]
fn many_digits(word: &[u8]) -> Option<u64>
    ensures digits { IfSome result (λ value. AllDigits 10 word.now × (value ≡ digits_value 10 word.now)) }
    ensures other { IfNone result ((max : ℕ) → max < 2 ^ 64 → spec.number max word.now ≡ None) }
{
    let mut value = 0;
    for byte in word {
        match with_digit(value, *byte) {
            None => return None,
            Some(more) => value = more,
        }
    }
    Some(value)
}

// What a digit says.
#[inline(always)]
fn digit_of(byte: u8) -> Option<u64>
    ensures { SomeIff result (IsInRange 48 57 byte) (byte - 48) }
{
    if byte.is_ascii_digit() {
        Some((byte - b'0') as u64)
    } else {
        None
    }
}

// The number with one more digit. Nothing where the byte is none, or the number too great.
#[inline(always)]
fn with_digit(value: u64, byte: u8) -> Option<u64>
    ensures { SomeIff result (IsInRange 48 57 byte × (value * 10 + (byte - 48) < 2 ^ 64))
        (value * 10 + (byte - 48)) }
{
    if !byte.is_ascii_digit() {
        return None;
    }
    value.checked_mul(10)?.checked_add((byte - b'0') as u64)
}
