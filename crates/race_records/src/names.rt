//! The table of names: what each was declared as, in the order of the declarations.
ghost use Rattle.std.specs.Prelude.{◌≡◌, ◌<◌, ◌≤◌, take, IfSome, [], ◌∷◌, ◌++◌, length, ◌↔◌, Some, slice_get, position};
ghost use Rattle.std.specs.{Prelude.{option_map, IsTrue, IfOk, OnOk, OnErr, IsNone}, Str.bytes_eq};
ghost use Rattle.race_records.specs.{Rows.declarations_of, Tables.{Row, row, slot_named}};

use crate::Object;
use crate::keyed::KeyedHasher;
use crate::shorts::Shorts;
use indexmap::IndexMap;
use std::alloc::{AllocError, Allocator};
use std::marker::Model;

fn is_same(a: Object, b: Object) -> bool
    ensures { IsTrue result ↔ (a ≡ b) }
{
    a == b
}

/// What a name stands for.
#[derive(Clone, Copy)]
pub struct Slot {
    pub(crate) object: Object,
    pub(crate) number: u32,
}

/// The declared names, each found by its bytes or by its index.
#[derive(Drop)]
pub struct Names<A: Allocator> {
    slots: IndexMap<String<A>, Slot, KeyedHasher, A>,
    // Short names are looked for here first: one look at memory, where the map has four.
    shorts: Shorts<A>,
}

impl<A: Allocator> Model for Names<A> {
    ghost use Rattle.std.specs.{Prelude.{List, map}, String.string_bytes};
    ghost use Rattle.race_records.specs.{Tables.{Row, row}, Shorts.AreNoted};

    ghost Value = { List Row };

    ghost view = { λ n. map (λ e. row (string_bytes e.0) e.1) n.slots.entries };

    ghost invariant = { λ n. AreNoted (map (λ e. row (string_bytes e.0) e.1) n.slots.entries) n.shorts };
}

impl<A: Allocator> Names<A> {
    // No names. The key is of the hashes.
    pub(crate) fn new(alloc: A, key: u64) -> Names<A>
    where
        A: Copy,
        ensures { result ≡ [] }
    {
        Names {
            slots: IndexMap::with_hasher(alloc, KeyedHasher::new(key)),
            shorts: Shorts::new(alloc),
        }
    }

    pub(crate) fn len(&self) -> usize
        ensures { result ≡ length self.now }
    {
        self.slots.len()
    }

    pub(crate) fn index_of(&self, name: &str) -> Option<usize>
        ensures { result ≡ position (λ r. bytes_eq name.now r.name) self.now }
    {
        self.slots.get_index_of(name)
    }

    // What the name stands for.
    pub(crate) fn find(&self, name: &str) -> Option<Slot>
        ensures { result ≡ slot_named name.now self.now }
    {
        match self.index_of(name) {
            Some(index) => Some(self.slot(index)),
            None => None,
        }
    }

    // What the name that the first `len` of these bytes are stands for, where that is found at once.
    #[inline(always)]
    pub(crate) fn find_short(&self, bytes: &[u8], len: usize) -> Option<Slot>
        requires { len ≤ length bytes.now }
        ensures { IfSome result (λ slot. slot_named (take len bytes.now) self.now ≡ Some slot) }
    {
        self.shorts.get(bytes, len)
    }

    pub(crate) fn name(&self, index: usize) -> &str
        requires { index < length self.now }
        ensures { option_map (λ r. r.name) (slice_get self.now index) ≡ Some result.now }
    {
        self.slots.get_index(index).unwrap().0.as_str()
    }

    pub(crate) fn slot(&self, index: usize) -> Slot
        requires { index < length self.now }
        ensures { option_map (λ r. r.slot) (slice_get self.now index) ≡ Some result }
    {
        *self.slots.get_index(index).unwrap().1
    }

    // Whether the two declare the same names alike, in the same order.
    pub(crate) fn declare_alike(&self, other: &Names<A>) -> bool
        ensures { IsTrue result ↔ (declarations_of self.now ≡ declarations_of other.now) }
    {
        if self.len() != other.len() {
            return false;
        }
        for index in 0..self.len() {
            if !self.declare_alike_at(other, index) {
                return false;
            }
        }
        true
    }

    fn declare_alike_at(&self, other: &Names<A>, index: usize) -> bool
        requires here { index < length self.now }
        requires there { index < length other.now }
        ensures { IsTrue result
            ↔ (slice_get (declarations_of self.now) index ≡ slice_get (declarations_of other.now) index) }
    {
        self.name(index) == other.name(index)
            && is_same(self.slot(index).object, other.slot(index).object)
    }

    // Puts a new name last.
    pub(crate) fn push(&mut self, name: &str, slot: Slot) -> Result<(), AllocError>
    where
        A: Copy,
        requires { IsNone (position (λ r. bytes_eq name.now r.name) self.old) }
        ensures ok { OnOk result (self.new ≡ self.old ++ row name.now slot ∷ []) }
        ensures err { OnErr result (self.new ≡ self.old) }
    {
        let text = String::from_str(*self.slots.allocator(), name)?;
        self.slots.insert(text, slot)?;
        self.shorts.note(name.as_bytes(), slot);
        Ok(())
    }

    pub(crate) fn copy(&self) -> Result<Names<A>, AllocError>
    where
        A: Copy,
        ensures { IfOk result (λ copy. copy ≡ self.now) }
    {
        Ok(Names {
            slots: self.slots.clone()?,
            shorts: Shorts::new(*self.slots.allocator()),
        })
    }
}
