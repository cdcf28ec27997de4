//! The walk through all captures: each chain of jumps of each piece, jump by jump.
ghost use Rattle.std.specs.Prelude.{◌≡◌, ◌≤◌, ◌+◌, ℕ, List, [], ◌∷◌, ◌++◌, length, OnOk, IfOk, false};
ghost use Rattle.dw_moves.specs.Moves.{Jump};
ghost use Rattle.std.specs.FinSet as set;
ghost use Rattle.dw_board.specs.Geometry.{OnBoard};
ghost use Rattle.dw_board.specs.Placement.{IsPosition, Placement};
ghost use Rattle.dw_board.specs.declared.piece.Side.{Side};
ghost use Rattle.dw_moves.specs.inner.Glance.{AreSets, CanTakeTowards, IsGround};
ghost use Rattle.dw_moves.specs.inner.Walks.{Offers, GoesOn, GoesTowards, Captures, Begins, BeginsTowards, so_far};

use crate::field::{Field, free_step};
use crate::keeper::Keeper;
use crate::mover::{Mover, Slider, Stepper, jump_starts};
use crate::moves::Move;
use dw_board::{Board, Dir, Kind, Position, Square, Squares};

/// A capture so far: its start, its present square, the taken pieces, and their number.
#[derive(Drop)]
struct Chain<B: Board> {
    from: Square<B>,
    at: Square<B>,
    taken: Squares<B>,
    count: u8,
}

impl<B: Board> Chain<B> {
    /// Returns the capture of a piece that has not jumped yet.
    #[inline(always)]
    fn on(from: Square<B>) -> Self
        ensures from { result.from ≡ from }
        ensures at { result.at ≡ from }
        ensures taken { result.taken ≡ set.empty }
        ensures count { result.count ≡ 0 }
    {
        Chain {
            from,
            at: from,
            taken: Squares::none(),
            count: 0,
        }
    }

    /// Returns the capture with one jump more. It must have fewer than 20 so far.
    #[inline(always)]
    fn onto(&self, over: Square<B>, landing: Square<B>) -> Self
        requires { self.now.count + 1 ≤ 20 }
        ensures from { result.from ≡ self.now.from }
        ensures at { result.at ≡ landing }
        ensures taken { result.taken ≡ set.insert self.now.taken over }
        ensures count { result.count ≡ self.now.count + 1 }
    {
        Chain {
            from: self.from,
            at: landing,
            taken: self.taken.with(over),
            count: self.count + 1,
        }
    }

    /// Returns the move if the capture ends here.
    #[inline(always)]
    fn ended(&self) -> Move<B>
        ensures { result ≡ record { from = self.now.from; to = self.now.at; taken = self.now.taken } }
    {
        Move {
            from: self.from,
            to: self.at,
            taken: self.taken,
        }
    }
}

/// Offers all captures of the side to move to a keeper, each once for each of its paths, also those that take fewer
/// pieces than others.
///
/// It goes by the direction of the first jump, so that sets of squares show the first jumps of all men.
pub(crate) fn walk_captures<B: Board, K: Keeper<B>>(
    position: &Position<B>,
    keeper: &mut K,
) -> Result<(), K::Fault>
    ensures kept { OnOk result (Offers K.holds (Captures B.geometry position.now) keeper.old keeper.new) }
    ensures position { IsPosition B.geometry position.now.cells }
{
    let field = Field::of(position);
    walk_first::<B, K>(&field, Dir::DownLeft, keeper)?;
    walk_first::<B, K>(&field, Dir::DownRight, keeper)?;
    walk_first::<B, K>(&field, Dir::UpLeft, keeper)?;
    walk_first::<B, K>(&field, Dir::UpRight, keeper)
}

/// Offers the captures that begin with a jump in this direction.
#[inline(always)]
fn walk_first<B: Board, K: Keeper<B>>(
    field: &Field<B>,
    direction: Dir,
    keeper: &mut K,
) -> Result<(), K::Fault>
    requires { set.len field.now.enemies ≤ 20 }
    ensures { OnOk result ((p : Placement) → AreSets B.geometry p field.now.men field.now.kings field.now.enemies
        field.now.occupied → Offers K.holds (BeginsTowards B.geometry p direction) keeper.old keeper.new) }
{
    let mut left = field.may_take(direction);
    'squares: while let Some((from, rest)) = left.split() {
        walk_from::<B, K>(field, from, direction, keeper)?;
        left = rest;
    }
    Ok(())
}

/// Offers the captures that begin on this square with a jump in this direction.
#[inline(always)]
fn walk_from<B: Board, K: Keeper<B>>(
    field: &Field<B>,
    from: Square<B>,
    direction: Dir,
    keeper: &mut K,
) -> Result<(), K::Fault>
    requires on_board { OnBoard B.geometry from }
    requires few { set.len field.now.enemies ≤ 20 }
    ensures { OnOk result ((p : Placement) → AreSets B.geometry p field.now.men field.now.kings field.now.enemies
        field.now.occupied → Offers K.holds (Begins B.geometry p direction from) keeper.old keeper.new) }
{
    let behind = field.without(from);
    let chain = Chain::on(from);
    keeper.begin(&from);
    if field.men.has(from) {
        walk_towards::<B, Stepper, K>(&behind, &chain, direction, keeper)
    } else if field.kings.has(from) {
        walk_towards::<B, Slider, K>(&behind, &chain, direction, keeper)
    } else {
        Ok(())
    }
}

/// Offers all captures that continue this one: those with further jumps in each direction, and the one that ends here.
#[cycle(walk)]
fn walk<B: Board, M: Mover<B>, K: Keeper<B>>(
    field: &Field<B>,
    chain: &Chain<B>,
    keeper: &mut K,
) -> Result<(), K::Fault>
    requires on_board { OnBoard B.geometry chain.now.at }
    requires few { chain.now.count + set.len (set.difference field.now.enemies chain.now.taken) ≤ 20 }
    requires counted { chain.now.count ≡ set.len chain.now.taken }
    requires path { (path : List ℕ) × (K.is_on keeper.old path × (length path ≡ chain.now.count + 1)) }
    ensures kept { OnOk result ((p : Placement) (side : Side) (path : List ℕ)
        → IsGround B.geometry p side field.now.enemies field.now.occupied → K.is_on keeper.old path
        → Offers K.holds (GoesOn B.geometry p (record { side = side; kind = M.as_kind })
        (so_far chain.now.from chain.now.at chain.now.taken path)) keeper.old keeper.new) }
    ensures on { OnOk result ((path : List ℕ) → K.is_on keeper.old path → K.is_on keeper.new path) }
{
    walk_towards::<B, M, K>(field, chain, Dir::UpLeft, keeper)?;
    walk_towards::<B, M, K>(field, chain, Dir::UpRight, keeper)?;
    walk_towards::<B, M, K>(field, chain, Dir::DownLeft, keeper)?;
    walk_towards::<B, M, K>(field, chain, Dir::DownRight, keeper)?;
    keeper.offer(&chain.ended(), chain.count)
}

/// Offers the captures that go on in one direction: over the next enemy, onto the square after it, or for a king onto
/// each free one. Jumped pieces stay on their squares and are not jumped twice.
#[cycle(walk)]
#[inline(always)]
fn walk_towards<B: Board, M: Mover<B>, K: Keeper<B>>(
    field: &Field<B>,
    chain: &Chain<B>,
    direction: Dir,
    keeper: &mut K,
) -> Result<(), K::Fault>
    requires on_board { OnBoard B.geometry chain.now.at }
    requires few { chain.now.count + set.len (set.difference field.now.enemies chain.now.taken) ≤ 20 }
    requires counted { chain.now.count ≡ set.len chain.now.taken }
    requires path { (path : List ℕ) × (K.is_on keeper.old path × (length path ≡ chain.now.count + 1)) }
    ensures kept { OnOk result ((p : Placement) (side : Side) (path : List ℕ)
        → IsGround B.geometry p side field.now.enemies field.now.occupied → K.is_on keeper.old path
        → Offers K.holds (GoesTowards B.geometry p (record { side = side; kind = M.as_kind })
        (so_far chain.now.from chain.now.at chain.now.taken path) direction) keeper.old keeper.new) }
    ensures on { OnOk result ((path : List ℕ) → K.is_on keeper.old path → K.is_on keeper.new path) }
{
    let Some(over) = M::met(field, &chain.at, direction) else {
        return Ok(());
    };
    if chain.taken.has(over) {
        return Ok(());
    }
    let starts = jump_starts::<B, M>(field, chain.taken.with(over));
    let mut at = over;
    'landings: while let Some(landing) = free_step(field.occupied, at, direction) {
        walk_onto::<B, M, K>(
            field,
            &chain.onto(over, landing),
            starts.has(landing),
            keeper,
        )?;
        match M::kind() {
            Kind::Man => break,
            Kind::King => at = landing,
        }
    }
    Ok(())
}

/// Enters the square on which the capture stands now, offers the captures that continue it, and leaves the square. Most
/// captures end there, so that `goes_on` is `false`. Those need no walk of their own.
#[cycle(walk)]
#[inline(always)]
fn walk_onto<B: Board, M: Mover<B>, K: Keeper<B>>(
    field: &Field<B>,
    chain: &Chain<B>,
    goes_on: bool,
    keeper: &mut K,
) -> Result<(), K::Fault>
    requires on_board { OnBoard B.geometry chain.now.at }
    requires few { chain.now.count + set.len (set.difference field.now.enemies chain.now.taken) ≤ 20 }
    requires counted { chain.now.count ≡ set.len chain.now.taken }
    requires path { (path : List ℕ) × (K.is_on keeper.old path × (length path ≡ chain.now.count)) }
    requires ends { goes_on ≡ false → (p : Placement) (side : Side) (c t : ℕ)
        → IsGround B.geometry p side field.now.enemies field.now.occupied → set.contains chain.now.taken c ≡ false
        → Jump B.geometry p (record { side = side; kind = M.as_kind }) chain.now.at c t → ⊥ }
    ensures kept { OnOk result ((p : Placement) (side : Side) (path : List ℕ)
        → IsGround B.geometry p side field.now.enemies field.now.occupied → K.is_on keeper.old path
        → Offers K.holds (GoesOn B.geometry p (record { side = side; kind = M.as_kind })
        (so_far chain.now.from chain.now.at chain.now.taken (path ++ chain.now.at ∷ []))) keeper.old keeper.new) }
    ensures on { OnOk result ((path : List ℕ) → K.is_on keeper.old path → K.is_on keeper.new path) }
{
    keeper.enter(&chain.at);
    if goes_on {
        walk::<B, M, K>(field, chain, keeper)?;
    } else {
        keeper.offer(&chain.ended(), chain.count)?;
    }
    keeper.leave();
    Ok(())
}
