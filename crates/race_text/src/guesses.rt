//! Where the places of events stand in the table, guessed by some of their bytes. A guess is compared
//! with the table, so it may be wrong, and a place that isn't guessed is looked for there.
ghost use Rattle.std.specs.Prelude.{◌≡◌, ◌≤◌, length, Some, IfSome, slice_get};

use crate::lanes::is_same;
use race_records::Decls;
use std::alloc::Allocator;

// Most traces have at most some thousand places. Two slots beside each other are for the same marks.
const SLOTS: usize = 16_384;

/// The number of a place, and a mark of its bytes, by which most others are told from it.
#[derive(Clone, Copy)]
pub struct Guess {
    mark: u32,
    place: u32,
}

/// Numbers of places that were met. A slot in which none was noted guesses the first place.
///
/// There are no slots before the first event, nor where memory was refused for them: then nothing is guessed.
#[derive(Drop)]
pub struct Guesses<A: Allocator> {
    slots: Vec<Guess, A>,
}

impl<A: Allocator + Copy> Guesses<A> {
    // Nothing is guessed yet. Takes no memory.
    pub(crate) fn new(alloc: A) -> Guesses<A> {
        Guesses {
            slots: Vec::new(alloc),
        }
    }

    // Makes the slots, unless memory is refused.
    pub(crate) fn make_room(&mut self) {
        let blank = Guess { mark: 0, place: 0 };
        if let Ok(slots) = Vec::from_elem(*self.slots.allocator(), blank, SLOTS) {
            self.slots = slots;
        }
    }

    // The number of the place with this mark, where it was guessed.
    #[inline(always)]
    pub(crate) fn number(&self, decls: &Decls<A>, place: &str, mark: u32) -> Option<u32>
        ensures { IfSome result (λ n. slice_get decls.now.places n ≡ Some place.now) }
    {
        match self.number_in(slot_of(mark), decls, place, mark) {
            Some(number) => Some(number),
            None => self.number_in(slot_of(mark) ^ 1, decls, place, mark),
        }
    }

    // The same where it was guessed in this slot.
    #[inline(always)]
    fn number_in(&self, slot: usize, decls: &Decls<A>, place: &str, mark: u32) -> Option<u32>
        ensures { IfSome result (λ n. slice_get decls.now.places n ≡ Some place.now) }
    {
        let guess = self.slots.as_slice().get(slot)?;
        if guess.mark == mark
            && guess.place < decls.place_count()
            && is_same(decls.place_text(guess.place).as_bytes(), place.as_bytes())
        {
            Some(guess.place)
        } else {
            None
        }
    }

    // The place with this mark has this number. What was guessed in its slot is guessed in the one beside it.
    #[inline(always)]
    pub(crate) fn note(&mut self, mark: u32, place: u32) {
        let slots = self.slots.as_mut_slice();
        let slot = slot_of(mark);
        if let Some(before) = slots.get_mut(slot) {
            let moved = *before;
            *before = Guess { mark, place };
            if let Some(beside) = slots.get_mut(slot ^ 1) {
                *beside = moved;
            }
        }
    }
}

// The slot of a mark is told by its highest bits, in which every byte has a part.
#[inline(always)]
fn slot_of(mark: u32) -> usize {
    (mark >> 18) as usize
}

// A mark of the first bytes, of those in the middle, and of the last. A place of fewer than eight
// bytes is marked by all of them.
#[inline(always)]
pub(crate) fn mark_of(place: &[u8]) -> u32 {
    if place.len() < 8 {
        return mixed(few_bytes(place), 0);
    }
    let last = place.len() - 8;
    let front = eight_bytes(place);
    let middle = eight_bytes(&place[last / 2..]).rotate_left(21);
    let back = eight_bytes(&place[last..]);
    mixed(front ^ middle, back)
}

// Bits in which every byte of both words has a part.
#[inline(always)]
fn mixed(word: u64, back: u64) -> u32 {
    let once = word.wrapping_mul(0x9e37_79b9_7f4a_7c15);
    let twice = (once ^ (once >> 32) ^ back).wrapping_mul(0xa076_1d64_78bd_642f);
    (twice >> 32) as u32
}

// Fewer than eight bytes, each in its own part of the word.
#[inline(always)]
fn few_bytes(bytes: &[u8]) -> u64 {
    let mut word = bytes.len() as u64;
    for byte in bytes {
        word = word.rotate_left(8) ^ u64::from(*byte);
    }
    word
}

// The first eight bytes.
#[inline(always)]
fn eight_bytes(bytes: &[u8]) -> u64
    requires { 8 ≤ length bytes.now }
{
    match bytes.first_chunk::<8>() {
        Some(eight) => u64::from_le_bytes(*eight),
        None => unreachable!(),
    }
}
