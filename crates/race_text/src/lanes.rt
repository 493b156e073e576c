//! Where a byte stands first. Many bytes are tested at once, as lanes of a vector.
ghost use Rattle.std.specs.{Prelude.{◌≡◌, ◌==◌, ◌+◌, ◌<◌, ◌≤◌, position, not, map, length, IsTrue}, Simd.Lanes.{chunk, mask_l}};
ghost use Rattle.race_records.specs.Name.{is_place_byte};

use std::simd::prelude::*;

// Where the byte stands first.
pub(crate) fn first_index(bytes: &[u8], byte: u8) -> Option<usize>
    ensures { result ≡ position (λ b. b == byte) bytes.now }
{
    let mut at = 0;
    while bytes.len() - at >= 64 {
        let found = equal_in(bytes, at, byte);
        if found != 0 {
            return Some(at + found.trailing_zeros() as usize);
        }
        at += 64;
    }
    match index_by_one(&bytes[at..], byte) {
        Some(behind) => Some(at + behind),
        None => None,
    }
}

// Where the first byte stands that can't be seen. A word is short, so fewer bytes are tested at once.
pub(crate) fn first_unseen(bytes: &[u8]) -> Option<usize>
    ensures { result ≡ position (λ b. not (is_place_byte b)) bytes.now }
{
    if bytes.len() < 16 {
        return unseen_in_few(bytes);
    }
    let mut at = 0;
    while bytes.len() - at >= 16 {
        let found = unseen_in(bytes, at);
        if found != 0 {
            return Some(at + found.trailing_zeros() as usize);
        }
        at += 16;
    }
    // The last 16, of which the first were tested already.
    let last = bytes.len() - 16;
    let behind = unseen_in(bytes, last);
    if behind != 0 {
        return Some(last + behind.trailing_zeros() as usize);
    }
    None
}

// The same of fewer than 16 bytes.
fn unseen_in_few(bytes: &[u8]) -> Option<usize>
    requires { length bytes.now < 16 }
    ensures { result ≡ position (λ b. not (is_place_byte b)) bytes.now }
{
    if bytes.len() < 8 {
        return unseen_by_one(bytes);
    }
    let found = unseen_in_eight(bytes, 0);
    if found != 0 {
        return Some(found.trailing_zeros() as usize);
    }
    let last = bytes.len() - 8;
    let behind = unseen_in_eight(bytes, last);
    if behind != 0 {
        return Some(last + behind.trailing_zeros() as usize);
    }
    None
}

// A bit for each of 64 bytes: whether it is the byte.
#[inline(always)]
fn equal_in(bytes: &[u8], at: usize, byte: u8) -> u64
    requires { at + 64 ≤ length bytes.now }
    ensures { result ≡ mask_l (map (λ b. b == byte) (chunk at 64 bytes.now)) }
{
    u8x64::from_slice(&bytes[at..])
        .simd_eq(u8x64::splat(byte))
        .to_bitmask()
}

// A bit for each of 16 bytes: whether it can't be seen. What is below the first byte that can be
// seen wraps, and is then above the last.
#[inline(always)]
fn unseen_in(bytes: &[u8], at: usize) -> u64
    requires { at + 16 ≤ length bytes.now }
    ensures { result ≡ mask_l (map (λ b. not (is_place_byte b)) (chunk at 16 bytes.now)) }
{
    (u8x16::from_slice(&bytes[at..]) - u8x16::splat(b'!'))
        .simd_ge(u8x16::splat(94))
        .to_bitmask()
}

// The same of the 64 bytes in front.
#[inline(always)]
pub(crate) fn unseen_in_front(bytes: &[u8]) -> u64
    requires { 64 ≤ length bytes.now }
    ensures { result ≡ mask_l (map (λ b. not (is_place_byte b)) (chunk 0 64 bytes.now)) }
{
    (u8x64::from_slice(bytes) - u8x64::splat(b'!'))
        .simd_ge(u8x64::splat(94))
        .to_bitmask()
}

// The same of 8 bytes.
#[inline(always)]
fn unseen_in_eight(bytes: &[u8], at: usize) -> u64
    requires { at + 8 ≤ length bytes.now }
    ensures { result ≡ mask_l (map (λ b. not (is_place_byte b)) (chunk at 8 bytes.now)) }
{
    (u8x8::from_slice(&bytes[at..]) - u8x8::splat(b'!'))
        .simd_ge(u8x8::splat(94))
        .to_bitmask()
}

// Whether both are alike. `false` promises nothing.
#[inline(always)]
pub(crate) fn is_same(left: &[u8], right: &[u8]) -> bool
    ensures { IsTrue result → left.now ≡ right.now }
{
    if left.len() != right.len() {
        return false;
    }
    if left.len() < 16 {
        return is_same_in_few(left, right);
    }
    let last = left.len() - 16;
    let mut at = 0;
    while at < last {
        if !is_same_at(left, right, at) {
            return false;
        }
        at += 16;
    }
    is_same_at(left, right, last)
}

// The same of fewer than 16 bytes, of which there are as many in both.
#[inline(always)]
fn is_same_in_few(left: &[u8], right: &[u8]) -> bool
    requires length { length left.now ≡ length right.now }
    requires few { length left.now < 16 }
    ensures { IsTrue result → left.now ≡ right.now }
{
    if left.len() < 8 {
        return left == right;
    }
    let last = left.len() - 8;
    is_same_in_eight(left, right, 0) && is_same_in_eight(left, right, last)
}

// Whether the 16 bytes at one place are alike.
#[inline(always)]
fn is_same_at(left: &[u8], right: &[u8], at: usize) -> bool
    requires left { at + 16 ≤ length left.now }
    requires right { at + 16 ≤ length right.now }
    ensures { IsTrue result → chunk at 16 left.now ≡ chunk at 16 right.now }
{
    u8x16::from_slice(&left[at..])
        .simd_eq(u8x16::from_slice(&right[at..]))
        .all()
}

// The same of 8 bytes.
#[inline(always)]
fn is_same_in_eight(left: &[u8], right: &[u8], at: usize) -> bool
    requires left { at + 8 ≤ length left.now }
    requires right { at + 8 ≤ length right.now }
    ensures { IsTrue result → chunk at 8 left.now ≡ chunk at 8 right.now }
{
    u8x8::from_slice(&left[at..])
        .simd_eq(u8x8::from_slice(&right[at..]))
        .all()
}

// The same of the last bytes, which are too few for a vector.
fn index_by_one(bytes: &[u8], byte: u8) -> Option<usize>
    ensures { result ≡ position (λ b. b == byte) bytes.now }
{
    bytes.iter().position(|b| *b == byte)
}

fn unseen_by_one(bytes: &[u8]) -> Option<usize>
    ensures { result ≡ position (λ b. not (is_place_byte b)) bytes.now }
{
    bytes.iter().position(|b| !is_seen(*b))
}

fn is_seen(byte: u8) -> bool
    ensures { result ≡ is_place_byte byte }
{
    b'!' <= byte && byte <= b'~'
}
