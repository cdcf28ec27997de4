//! The size of a table of buckets: it doubles without losing an entry, or begins anew.
ghost use Rattle.std.specs.Prelude.{◌≡◌, ◌≤◌, ◌<◌, ◌*◌, [], length, slice_get, Some, IsErr, OnOk};
ghost use Rattle.dw_memo.specs.inner.Buckets.{held, IsTable};
ghost use Rattle.dw_memo.specs.Content.{IsMap, SameEntries};
ghost use Rattle.dw_memo.specs.inner.Growing.{IsSplitAt, IsWidened};

use crate::bucket::Bucket;
use dw_board::Board;
use std::alloc::AllocError;

/// A table that may have more buckets than this begins with a half, a quarter or less of them, rounded down.
pub(crate) const FEW: usize = 2048;

/// Returns the number of buckets with which a table begins that may have `most`, at least 1. Repeated doubling reaches
/// nearly all of them.
pub(crate) fn first_size(most: usize) -> usize
    requires { 1 ≤ most }
    ensures some { 1 ≤ result }
    ensures within { result ≤ most }
{
    let mut size = most;
    'halves: while FEW < size {
        size /= 2;
    }
    size
}

/// Doubles a table that is crowded after this number of counted entries, if it may have twice as many buckets.
pub(crate) fn make_room<B: Board, T: Bucket<B>>(buckets: &mut Vec<T>, counted: usize, most: usize)
    requires { IsTable B.geometry T.entries buckets.old.items }
    ensures table { IsTable B.geometry T.entries buckets.new.items }
    ensures same { SameEntries (held T.entries buckets.old.items) (held T.entries buckets.new.items) }
{
    let size = buckets.len();
    if T::is_crowded(size, counted) && size <= most / 2 {
        double(buckets);
    }
}

/// Doubles the buckets, in the memory taken at the start, and moves each entry to its own bucket. This is rare, and so
/// kept out of the code of a note.
#[cold]
#[inline(never)]
fn double<B: Board, T: Bucket<B>>(buckets: &mut Vec<T>)
    requires few { length buckets.old.items * 2 < 18446744073709551616 }
    requires table { IsTable B.geometry T.entries buckets.old.items }
    ensures table { IsTable B.geometry T.entries buckets.new.items }
    ensures same { SameEntries (held T.entries buckets.old.items) (held T.entries buckets.new.items) }
{
    let size = buckets.len();
    let Ok(()) = widen(buckets, size) else {
        return;
    };
    let mut left = size;
    'buckets: while left > 0 {
        left -= 1;
        bring_home(buckets, left, size);
    }
}

/// Appends `count` empty buckets to a table. If memory is refused, nothing changes.
pub(crate) fn widen<B: Board, T: Bucket<B>>(
    buckets: &mut Vec<T>,
    count: usize,
) -> Result<(), AllocError>
    ensures wider { OnOk result (IsWidened T.entries count buckets.old.items buckets.new.items) }
    ensures same { IsErr result → buckets.new.items ≡ buckets.old.items }
{
    let size = buckets.len();
    'more: for _ in 0..count {
        if buckets.push(T::empty()).is_err() {
            buckets.truncate(size);
            return Err(AllocError);
        }
    }
    Ok(())
}

/// Empties a table, and shrinks it to the size with which it began.
pub(crate) fn clear<B: Board, T: Bucket<B>>(buckets: &mut Vec<T>)
    requires { IsTable B.geometry T.entries buckets.old.items }
    ensures table { IsTable B.geometry T.entries buckets.new.items }
    ensures empty { held T.entries buckets.new.items ≡ [] }
{
    let size = first_size(buckets.len());
    buckets.truncate(size);
    'buckets: for index in 0..size {
        buckets[index] = T::empty();
    }
}

/// Splits a bucket into the two that replace it in a table of double size.
fn bring_home<B: Board, T: Bucket<B>>(buckets: &mut Vec<T>, index: usize, size: usize)
    requires inside { index < size }
    requires all { length buckets.old.items ≡ 2 * size }
    requires map { (x : T) → slice_get buckets.old.items index ≡ Some x → IsMap (T.entries x) }
    ensures { IsSplitAt B.geometry T.entries size index buckets.old.items buckets.new.items }
{
    let bucket = buckets[index];
    let (low, high) = bucket.split(2 * index, 2 * size);
    buckets[2 * index] = low;
    buckets[2 * index + 1] = high;
}
