//! What becomes of the bytes that were read.
ghost use Rattle.std.specs.Prelude.{ℕ, List};

use std::alloc::{AllocError, Allocator};

/// What becomes of the bytes that were read.
pub(crate) trait Keeper {
    ghost use Rattle.std.specs.Prelude.{ℕ, List, ◌++◌, OnOk};

    // It has kept these bytes, where it keeps any.
    ghost has_kept: { Self → List ℕ → Type 0 };

    /// Keeps bytes behind those that it has kept.
    fn keep(&mut self, bytes: &[u8]) -> Result<(), AllocError>
        ensures { OnOk result ((before : List ℕ) → has_kept self.old before → has_kept self.new (before ++ bytes.now)) };
}

/// Keeps nothing.
#[derive(Drop)]
pub(crate) struct Forgets;

impl Keeper for Forgets {
    ghost use Rattle.std.specs.Prelude.{⊤};

    ghost has_kept = { λ _ _. ⊤ };

    fn keep(&mut self, _bytes: &[u8]) -> Result<(), AllocError> {
        Ok(())
    }
}

impl<A: Allocator> Keeper for Vec<u8, A> {
    ghost use Rattle.std.specs.Prelude.{◌≡◌};

    ghost has_kept = { λ kept bytes. kept.items ≡ bytes };

    fn keep(&mut self, bytes: &[u8]) -> Result<(), AllocError> {
        self.extend_from_slice(bytes)
    }
}
