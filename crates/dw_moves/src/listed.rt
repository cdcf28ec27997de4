//! The legal moves in order, with their least paths.
ghost use Rattle.std.specs.Prelude.{◌≡◌, ◌≤◌, ◌<◌, ◌↔◌, [], take, length, IfOk, OnOk, OnErr, IsTrue, HoldsAt};
ghost use Rattle.std.specs.Ordering.{is_lt};
ghost use Rattle.dw_board.specs.Lists.{Member};
ghost use Rattle.dw_moves.specs.Order.{LexLess, AreListed, Listed as AnyListed};
ghost use Rattle.dw_moves.specs.inner.Walks.{sorted_by, HasAll, PathsHeld, TakenIn, These};

use crate::glance::can_capture;
use crate::keeper::Keeper;
use crate::moves::{LONGEST_PATH, Listed, Move};
use crate::quiet::push_quiet;
use crate::walk::walk_captures;
use arrayvec::ArrayVec;
use dw_board::{Board, Position, Square};
use std::alloc::{AllocError, Global};
use std::cmp::Ordering;
use std::mem::replace;

/// Returns all legal moves in ascending order, each once and with its least path; or an error if out of memory.
pub fn listed<B: Board>(alloc: Global, position: &Position<B>) -> Result<Vec<Listed<B>>, AllocError>
    ensures { IfOk result (λ list. AreListed B.geometry position.now list.items) }
{
    let mut list = Vec::new(alloc);
    listed_into(position, &mut list)?;
    Ok(list)
}

/// Fills a list with all legal moves in ascending order, each once and with its least path. Its old content is dropped
/// and its memory reused; only captures allocate more. If out of memory, the list is empty.
pub fn listed_into<B: Board>(
    position: &Position<B>,
    list: &mut Vec<Listed<B>>,
) -> Result<(), AllocError>
    ensures all { OnOk result (AreListed B.geometry position.now list.new.items) }
    ensures none { OnErr result (list.new.items ≡ []) }
{
    list.clear();
    let pushed = push_listed(position, list);
    if pushed.is_err() {
        list.clear();
    } else {
        list.sort_unstable_by(order);
    }
    pushed
}

/// Adds all legal moves to a list, which must be empty, in any order and each with its least path.
fn push_listed<B: Board>(
    position: &Position<B>,
    list: &mut Vec<Listed<B>>,
) -> Result<(), AllocError>
    requires { list.old.items ≡ [] }
    ensures { OnOk result (HasAll B.geometry position.now list.new.items) }
{
    if !can_capture(position) {
        return push_quiet(position, list);
    }
    let empty = Vec::new(*list.allocator());
    let mut least = LeastPaths {
        most: 0,
        path: ArrayVec::new(),
        list: replace(list, empty),
    };
    let walked = walk_captures(position, &mut least);
    let LeastPaths {
        most: _,
        path: _,
        list: found,
    } = least;
    *list = found;
    walked
}

/// Keeps the moves that take the greatest number of pieces so far, each with the least of its paths.
#[derive(Drop)]
struct LeastPaths<B: Board> {
    most: u8,
    path: ArrayVec<Square<B>, LONGEST_PATH>,
    list: Vec<Listed<B>>,
}

impl<B: Board> Keeper<B> for LeastPaths<B> {
    type Fault = AllocError;

    ghost holds = { λ first xs k. PathsHeld (These xs) k.most k.list.items };

    ghost is_on = { λ k path. k.path.items ≡ path };

    fn begin(&mut self, from: &Square<B>) {
        self.path.clear();
        self.path.push(*from);
    }

    fn enter(&mut self, landing: &Square<B>) {
        self.path.push(*landing);
    }

    fn leave(&mut self) {
        self.path.pop();
    }

    fn offer(&mut self, mv: &Move<B>, count: u8) -> Result<(), AllocError> {
        if count < self.most {
            return Ok(());
        }
        if self.most < count {
            self.list.clear();
            self.most = count;
        }
        keep_least(*mv, self.path.as_slice(), &mut self.list)
    }
}

/// Keeps a path of a move if it is the first one, or less than the one kept so far.
fn keep_least<B: Board>(
    mv: Move<B>,
    path: &[Square<B>],
    list: &mut Vec<Listed<B>>,
) -> Result<(), AllocError>
    requires { length path.now ≤ 21 }
    ensures { OnOk result (TakenIn (record {
      step = mv;
      path = path.now;
    }) list.old.items list.new.items) }
{
    let place = place_of(list.as_slice(), &mv);
    if place == list.len() {
        list.push(Listed {
            step: mv,
            path: copied(path),
        })?;
        return Ok(());
    }
    let kept = &list[place];
    if is_less(path, kept.path.as_slice()) {
        list[place] = Listed {
            step: mv,
            path: copied(path),
        };
    }
    Ok(())
}

/// Returns an array with these squares.
fn copied<B: Board>(path: &[Square<B>]) -> ArrayVec<Square<B>, LONGEST_PATH>
    requires { length path.now ≤ 21 }
    ensures { result.items ≡ path.now }
{
    let mut copied = ArrayVec::new();
    let _ = copied.try_extend_from_slice(path);
    copied
}

/// Returns the place of a move in a list, or the length of the list if it is not there.
fn place_of<B: Board>(list: &[Listed<B>], mv: &Move<B>) -> usize
    ensures within { result ≤ length list.now }
    ensures there { result < length list.now → HoldsAt (λ l. l.step ≡ mv.now) list.now result }
    ensures before { (l : AnyListed) → Member l (take result list.now) → l.step ≡ mv.now → ⊥ }
{
    'moves: for (place, item) in list.iter().enumerate() {
        if item.step == *mv {
            return place;
        }
    }
    list.len()
}

/// Compares two different moves by their starts, then by their ends, then by their paths. Never returns `Equal`, as a
/// list has each move once.
fn order<B: Board>(a: &Listed<B>, b: &Listed<B>) -> Ordering
    ensures { IsTrue (is_lt result) ↔ LexLess (sorted_by a.now) (sorted_by b.now) }
{
    let precedes = if a.step.from != b.step.from {
        a.step.from < b.step.from
    } else if a.step.to != b.step.to {
        a.step.to < b.step.to
    } else {
        is_less(a.path.as_slice(), b.path.as_slice())
    };
    if precedes {
        Ordering::Less
    } else {
        Ordering::Greater
    }
}

/// Returns whether a list of squares comes before another in lexicographic order.
fn is_less<B: Board>(a: &[Square<B>], b: &[Square<B>]) -> bool
    ensures { IsTrue result ↔ LexLess a.now b.now }
{
    let Some((first, rest)) = a.split_first() else {
        return !b.is_empty();
    };
    let Some((other, others)) = b.split_first() else {
        return false;
    };
    if *first != *other {
        *first < *other
    } else {
        is_less(rest, others)
    }
}
