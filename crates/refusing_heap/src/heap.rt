ghost use Rattle.std.specs.Prelude.{◌≡◌, ◌<◌};

use std::alloc::{AllocError, Allocator};
use std::sync::atomic::{AtomicU64, Ordering};

/// An allocator over another one that refuses one growth, once, and serves all others.
///
/// A growth is a call for a block or for a larger one, as `Vec::push` makes when it is full;
/// shrinking is none. Collections share it by `&`, also across threads, where the growths of all
/// of them count together.
pub struct RefusingHeap<B: Allocator> {
    inner: B,
    left: AtomicU64,
}

impl<B: Allocator> RefusingHeap<B> {
    /// An allocator that serves every growth until `refuse` is called.
    pub fn new(inner: B) -> RefusingHeap<B>
        ensures { result.inner ≡ inner }
    {
        // More growths than any run makes.
        RefusingHeap {
            inner,
            left: AtomicU64::new(u64::MAX),
        }
    }

    /// Refuses growth number `nth` from here on, counted from 1, and no other.
    pub fn refuse(&self, nth: u64)
        requires { 0 < nth }
    {
        self.left.store(nth, Ordering::SeqCst);
    }

    /// How many growths are left up to and with the refused one, so 0 once it was refused.
    pub fn left(&self) -> u64 {
        self.left.load(Ordering::SeqCst)
    }

    /// Tells whether the growth was refused.
    pub fn has_refused(&self) -> bool {
        self.left() == 0
    }
}

impl<B: Allocator> Drop for RefusingHeap<B> {
    fn drop(self) {
        let Self { inner: _, left: _ } = self;
    }
}

// The count stays at 0, so one growth alone takes it from 1.
fn refuses(left: &AtomicU64) -> bool {
    let before = left.fetch_update(
        Ordering::SeqCst,
        Ordering::SeqCst,
        |left| left.checked_sub(1),
    );
    before == Ok(1)
}

unsafe impl<B: Allocator> Allocator for RefusingHeap<B> {
    ghost dealloc_token = { λ heap ty ptr. B.dealloc_token heap.inner ty ptr };

    fn allocate(&self, size: usize, align: usize) -> Result<*mut u8, AllocError> {
        if refuses(&self.left) {
            return Err(AllocError);
        }
        self.inner.allocate(size, align)
    }

    unsafe fn deallocate(&self, ptr: *mut u8, size: usize, align: usize) {
        self.inner.deallocate(ptr, size, align);
    }

    // The trait's own body asks for a smaller block, which would count as a growth.
    unsafe fn shrink<T>(
        &self,
        ptr: *mut T,
        len: usize,
        old_cap: usize,
        new_cap: usize,
    ) -> Result<*mut T, AllocError> {
        self.inner.shrink(ptr, len, old_cap, new_cap)
    }
}
