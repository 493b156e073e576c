//! The table of places: texts that each stand once, in the order in which they came.
ghost use Rattle.std.specs.Prelude.{◌≡◌, ◌<◌, [], ◌∷◌, ◌++◌, length, Some, slice_get, position, IfOk, OnOk, OnErr};
ghost use Rattle.std.specs.{Prelude.IsNone, Str.bytes_eq};

use crate::keyed::KeyedHasher;
use indexmap::IndexSet;
use std::alloc::{AllocError, Allocator};
use std::marker::Model;

/// Distinct texts, each found by its bytes or by its index.
#[derive(Drop)]
pub struct Places<A: Allocator> {
    texts: IndexSet<String<A>, KeyedHasher, A>,
}

impl<A: Allocator> Model for Places<A> {
    ghost use Rattle.std.specs.{Prelude.{List, ℕ, map}, String.string_bytes};

    ghost Value = { List (List ℕ) };

    ghost view = { λ p. map string_bytes p.texts.keys };
}

impl<A: Allocator> Places<A> {
    // No texts. The key is of the hashes.
    pub(crate) fn new(alloc: A, key: u64) -> Places<A>
    where
        A: Copy,
        ensures { result ≡ [] }
    {
        Places {
            texts: IndexSet::with_hasher(alloc, KeyedHasher::new(key)),
        }
    }

    pub(crate) fn allocator(&self) -> &A {
        self.texts.allocator()
    }

    pub(crate) fn len(&self) -> usize
        ensures { result ≡ length self.now }
    {
        self.texts.len()
    }

    pub(crate) fn index_of(&self, text: &str) -> Option<usize>
        ensures { result ≡ position (bytes_eq text.now) self.now }
    {
        self.texts.get_index_of(text)
    }

    pub(crate) fn get(&self, index: usize) -> &str
        requires { index < length self.now }
        ensures { slice_get self.now index ≡ Some result.now }
    {
        self.texts.get_index(index).unwrap().as_str()
    }

    // Puts a new text last.
    pub(crate) fn push(&mut self, text: &str) -> Result<(), AllocError>
    where
        A: Copy,
        requires { IsNone (position (bytes_eq text.now) self.old) }
        ensures ok { OnOk result (self.new ≡ self.old ++ text.now ∷ []) }
        ensures err { OnErr result (self.new ≡ self.old) }
    {
        let text = String::from_str(*self.texts.allocator(), text)?;
        self.texts.insert(text)?;
        Ok(())
    }

    pub(crate) fn copy(&self) -> Result<Places<A>, AllocError>
    where
        A: Copy,
        ensures { IfOk result (λ copy. copy ≡ self.now) }
    {
        Ok(Places {
            texts: self.texts.clone()?,
        })
    }
}
