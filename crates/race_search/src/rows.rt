//! Rows of numbers. Nothing is proved of the search but that it returns, so a row that isn't there reads as `NONE`.

use std::alloc::{AllocError, Allocator};

/// No event.
pub(crate) const NONE: u32 = u32::MAX;

/// The number in a row, or `NONE` where there is no such row.
pub(crate) fn row<A: Allocator>(rows: &Vec<u32, A>, i: u32) -> u32 {
    if (i as usize) < rows.len() {
        rows[i as usize]
    } else {
        NONE
    }
}

/// Puts the number into a row, where there is such a row.
pub(crate) fn set_row<A: Allocator>(rows: &mut Vec<u32, A>, i: u32, value: u32) {
    if (i as usize) < rows.len() {
        rows[i as usize] = value;
    }
}

/// Puts a row behind the others, and gives its index, or `NONE` where that is too large.
pub(crate) fn push_row<T, A: Allocator>(rows: &mut Vec<T, A>, value: T) -> Result<u32, AllocError>
where
    T: Drop,
{
    let i = rows.len();
    rows.push(value)?;
    if i < NONE as usize {
        Ok(i as u32)
    } else {
        Ok(NONE)
    }
}

/// So many rows with one number.
pub(crate) fn rows_of<A: Allocator + Copy>(
    alloc: A,
    len: usize,
    value: u32,
) -> Result<Vec<u32, A>, AllocError> {
    vec![in alloc; value; len]
}

/// Puts one number into all rows.
pub(crate) fn fill<A: Allocator>(rows: &mut Vec<u32, A>, value: u32) {
    for cell in rows.iter_mut() {
        *cell = value;
    }
}

/// One more in a row.
pub(crate) fn raise<A: Allocator>(rows: &mut Vec<u32, A>, i: u32) {
    let old = row(rows, i);
    set_row(rows, i, old.saturating_add(1));
}

/// One less in a row.
pub(crate) fn lower<A: Allocator>(rows: &mut Vec<u32, A>, i: u32) {
    let old = row(rows, i);
    set_row(rows, i, old.saturating_sub(1));
}
