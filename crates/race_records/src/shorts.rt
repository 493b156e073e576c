//! Short names with what they stand for, found by their bytes alone: one look at memory for a name,
//! where a map has four.
ghost use Rattle.std.specs.Prelude.{ℕ, ◌≡◌, ◌↔◌, ◌<◌, ◌≤◌, ◌-◌, ◌*◌, ◌^◌, min, [], List, length, take, Some, IfSome};
ghost use Rattle.std.specs.{Prelude.IsTrue, Int.{from_le_bytes, w64}};
ghost use Rattle.race_records.specs.{Tables.{Row, slot_named}, Shorts.{AreBytes, AreNoted, IsNoted}};
ghost use Rattle.race_records.specs.Shorts as spec;

use crate::Object;
use crate::names::Slot;
use std::alloc::Allocator;
use std::marker::Model;

// The most bytes of a short name, which its first and its last eight are.
const MAX_SHORT: usize = 16;

// The least and the most slots: a kind has at most 65,535 objects.
const MIN_SLOTS: usize = 1_024;

const MAX_SLOTS: usize = 262_144;

// In how many slots a name may stand: its own, and those whose numbers differ in the lowest bits.
const SLOTS_OF_ONE: usize = 8;

/// A short name as numbers: how many bytes it has, the first of them and the last of them. They are
/// words alike, as a key that is written by halves and read as words waits for the writes.
#[derive(Clone, Copy)]
pub struct Key {
    pub(crate) len: u64,
    pub(crate) front: u64,
    pub(crate) back: u64,
}

/// A short name, and what it stands for.
#[derive(Clone, Copy)]
pub struct Short {
    pub(crate) front: u64,
    pub(crate) back: u64,
    pub(crate) len: u32,
    pub(crate) slot: Slot,
}

// What stands in a slot without a name: none is so long.
const BLANK: Short = Short {
    front: 0,
    back: 0,
    len: 255,
    slot: Slot {
        object: Object::Var,
        number: 0,
    },
};

/// Some of the short names; one that isn't found may be declared all the same.
#[derive(Drop)]
pub struct Shorts<A: Allocator> {
    slots: Vec<Short, A>,
    noted: usize,
}

impl<A: Allocator> Model for Shorts<A> {
    ghost use Rattle.std.specs.Prelude.{List};
    ghost use Rattle.race_records.specs.declared.shorts.Short.{Short};

    ghost Value = { List Short };

    ghost view = { λ s. s.slots.items };

    ghost use Rattle.std.specs.Prelude.{length};
    ghost use Rattle.race_records.specs.Shorts.{AreFew};

    ghost invariant = { λ s. AreFew (length s.slots.items) s.noted };
}

impl<A: Allocator> Shorts<A> {
    /// None is noted. Takes no memory.
    pub(crate) fn new(alloc: A) -> Shorts<A>
        ensures { result ≡ [] }
    {
        Shorts {
            slots: Vec::new(alloc),
            noted: 0,
        }
    }

    /// What the name that the first `len` of these bytes are stands for, where it is found at once.
    #[inline(always)]
    pub(crate) fn get(&self, bytes: &[u8], len: usize) -> Option<Slot>
        requires { len ≤ length bytes.now }
        ensures { IfSome result (λ slot. (rows : List Row) → AreNoted rows self.now
            → slot_named (take len bytes.now) rows ≡ Some slot) }
    {
        let key = key_at(bytes, len)?;
        find_in(self.slots.as_slice(), key)
    }

    /// Notes a name, if it is a short one and one of its slots is blank. None makes room for it.
    pub(crate) fn note(&mut self, name: &[u8], slot: Slot)
    where
        A: Copy,
        ensures { (rows : List Row) → AreNoted rows self.old
            → slot_named name.now rows ≡ Some slot → AreNoted rows self.new }
    {
        let Some(key) = key_of(name) else {
            return;
        };
        let Ok(len) = u32::try_from(key.len) else {
            return;
        };
        self.noted = self.noted.saturating_add(1);
        self.make_room();
        put(
            &mut self.slots,
            Short {
                front: key.front,
                back: key.back,
                len,
                slot,
            },
        );
    }

    // Twice as many slots where more than half of them are taken, unless memory is refused.
    fn make_room(&mut self)
    where
        A: Copy,
        ensures { (rows : List Row) → AreNoted rows self.old → AreNoted rows self.new }
    {
        if self.slots.len() >= MAX_SLOTS || self.noted <= self.slots.len() / 2 {
            return;
        }
        let count = self
            .slots
            .len()
            .saturating_mul(2)
            .max(MIN_SLOTS)
            .min(MAX_SLOTS);
        let Ok(mut slots) = Vec::from_elem(*self.slots.allocator(), BLANK, count) else {
            return;
        };
        put_each(&mut slots, self.slots.as_slice());
        self.slots = slots;
    }
}

// The key of a short name.
#[inline(never)]
fn key_of(name: &[u8]) -> Option<Key>
    ensures { result ≡ spec.short_key name.now }
{
    if name.len() > MAX_SHORT {
        return None;
    }
    let mut bytes = [0; MAX_SHORT];
    bytes[..name.len()].copy_from_slice(name);
    Some(key_in_front(&bytes, name.len()))
}

// The key of the name that the first `len` of these bytes are, if it is a short one.
#[inline(always)]
fn key_at(bytes: &[u8], len: usize) -> Option<Key>
    requires { len ≤ length bytes.now }
    ensures { result ≡ spec.short_key (take len bytes.now) }
{
    if len > MAX_SHORT {
        return None;
    }
    if bytes.len() < MAX_SHORT {
        return key_of(&bytes[..len]);
    }
    Some(key_in_front(bytes, len))
}

// The same where so many bytes are there that those behind the name are cut away as bits.
#[inline(always)]
fn key_in_front(bytes: &[u8], len: usize) -> Key
    requires enough { 16 ≤ length bytes.now }
    requires short { len ≤ 16 }
    ensures { spec.short_key (take len bytes.now) ≡ Some result }
{
    Key {
        len: len as u64,
        front: eight_bytes(bytes) & low_bytes(len),
        back: eight_bytes(&bytes[8..]) & low_bytes(len.saturating_sub(8)),
    }
}

// The first eight bytes.
#[inline(always)]
fn eight_bytes(bytes: &[u8]) -> u64
    requires { 8 ≤ length bytes.now }
    ensures { result ≡ from_le_bytes w64 bytes.now }
{
    match bytes.first_chunk::<8>() {
        Some(eight) => u64::from_le_bytes(*eight),
        None => unreachable!(),
    }
}

// The bits of so many bytes, of eight at most.
#[inline(always)]
fn low_bytes(count: usize) -> u64
    ensures { result ≡ 2 ^ (8 * min count 8) - 1 }
{
    match count.min(8) {
        0 => 0,
        1 => 0xff,
        2 => 0xffff,
        3 => 0xff_ffff,
        4 => 0xffff_ffff,
        5 => 0xff_ffff_ffff,
        6 => 0xffff_ffff_ffff,
        7 => 0xff_ffff_ffff_ffff,
        _ => u64::MAX,
    }
}

// The key's own slot among so many slots, a power of two. Every byte of a name has a part in it, so
// that names which are numbered in a row don't share their slots.
#[inline(always)]
fn place_of(key: Key, count: usize) -> usize {
    let once = (key.front ^ key.back.rotate_left(29)).wrapping_mul(0x9e37_79b9_7f4a_7c15);
    let mixed = (once ^ (once >> 32)).wrapping_mul(0xa076_1d64_78bd_642f);
    (mixed >> 32) as usize & count.wrapping_sub(1)
}

// What is noted for the key. Most names stand in their own slot, which is looked at first.
#[inline(always)]
fn find_in(slots: &[Short], key: Key) -> Option<Slot>
    ensures { IfSome result (λ slot. (name : List ℕ) (rows : List Row) → AreBytes name → spec.short_key name ≡ Some key
        → AreNoted rows slots.now → slot_named name rows ≡ Some slot) }
{
    let at = place_of(key, slots.len());
    for nth in 0..SLOTS_OF_ONE {
        let i = at ^ nth;
        if i < slots.len() && has_key(&slots[i], key) {
            return Some(slots[i].slot);
        }
    }
    None
}

// Whether the slot has that key.
#[inline(always)]
fn has_key(short: &Short, key: Key) -> bool
    ensures { IsTrue result ↔ (spec.key_in short.now ≡ key) }
{
    short.front == key.front && short.back == key.back && u64::from(short.len) == key.len
}

// Puts a name into one of its slots, if one of them is blank.
fn put<A: Allocator>(slots: &mut Vec<Short, A>, short: Short)
    ensures len { length slots.new.items ≡ length slots.old.items }
    ensures noted { (rows : List Row) → AreNoted rows slots.old.items → IsNoted rows short → AreNoted rows slots.new.items }
{
    if let Some(i) = free_slot(slots.as_slice(), &short) {
        slots[i] = short;
    }
}

// The first blank one of the name's slots.
fn free_slot(slots: &[Short], short: &Short) -> Option<usize>
    ensures { IfSome result (λ i. i < length slots.now) }
{
    let key = Key {
        len: u64::from(short.len),
        front: short.front,
        back: short.back,
    };
    let at = place_of(key, slots.len());
    for nth in 0..SLOTS_OF_ONE {
        let i = at ^ nth;
        if i < slots.len() && slots[i].len == BLANK.len {
            return Some(i);
        }
    }
    None
}

// Puts each of these names into one of its slots.
fn put_each<A: Allocator>(slots: &mut Vec<Short, A>, from: &[Short])
    ensures len { length slots.new.items ≡ length slots.old.items }
    ensures noted { (rows : List Row) → AreNoted rows from.now → AreNoted rows slots.old.items → AreNoted rows slots.new.items }
{
    for at in 0..from.len() {
        put(slots, from[at]);
    }
}
