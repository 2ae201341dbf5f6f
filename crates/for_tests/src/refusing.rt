//! An allocator for tests that refuses one request.

use std::alloc::{AllocError, Allocator};
use std::cell::Cell;

/// Passes all requests to another allocator, except one request, which it refuses.
///
/// Code over a `&Refusing<B>` can thus run out of memory at each of its requests in turn.
pub struct Refusing<B: Allocator> {
    inner: B,
    /// The number of the request to refuse, counted from the next one, or 0 if none is left to refuse.
    left: Cell<u64>,
}

impl<B: Allocator> Refusing<B> {
    /// Creates an allocator that refuses the request with this number, counted from 1, or no request if the
    /// number is 0.
    pub fn new(inner: B, number: u64) -> Refusing<B> {
        Refusing {
            inner,
            left: Cell::new(number),
        }
    }

    /// Returns whether the request to refuse has come, or the number was 0.
    pub fn has_refused(&self) -> bool {
        self.left.get() == 0
    }
}

impl<B: Allocator> Drop for Refusing<B> {
    fn drop(self) {
        let Self { inner: _, left: _ } = self;
    }
}

/// Counts a request, and returns whether it is the one to refuse.
fn refuses(left: &Cell<u64>) -> bool {
    let number = left.get();
    left.set(number.saturating_sub(1));
    number == 1
}

// `grow` and `shrink` keep the trait's bodies, so each makes one request.
unsafe impl<B: Allocator> Allocator for Refusing<B> {
    ghost dealloc_token = { λ heap ty ptr. B.dealloc_token heap.inner ty ptr };

    fn allocate(&self, size: usize, align: usize) -> Result<*mut u8, AllocError> {
        if refuses(&self.left) {
            return Err(AllocError);
        }
        self.inner.allocate(size, align)
    }

    unsafe fn deallocate(&self, ptr: *mut u8, size: usize, align: usize) {
        self.inner.deallocate(ptr, size, align);
    }
}
