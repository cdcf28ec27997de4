//! The sets of squares of a position, as one side sees them.
ghost use Rattle.std.specs.Prelude.{◌≡◌, ◌≤◌, ◌↔◌, ◌⊎◌, ℕ, Some, None, IsTrue, IfSome};
ghost use Rattle.std.specs.FinSet as set;
ghost use Rattle.dw_board.specs.Geometry.{OnBoard, step};
ghost use Rattle.dw_board.specs.Placement.{IsPosition, Placement};
ghost use Rattle.dw_moves.specs.Moves.{In};
ghost use Rattle.dw_moves.specs.Replies.{with_turn};
ghost use Rattle.dw_moves.specs.inner.Glance.{AreSets, CanTakeTowards, IsOccupied, MenMeet};
ghost use Rattle.dw_moves.specs.inner.Glance.{MenTake, KingsTake, Takes};
ghost use Rattle.dw_moves.specs.inner.Glance.{Steps, StepsOn, HasTwo};
ghost use Rattle.dw_moves.specs.inner.Plain as plain;

use crate::quiet::may_go;
use dw_board::{Board, Dir, Kind, Position, Side, Square, Squares, step};

/// The squares of a position, grouped by their meaning for the side to move.
#[derive(Drop)]
pub(crate) struct Field<B: Board> {
    pub(crate) men: Squares<B>,
    pub(crate) kings: Squares<B>,
    pub(crate) enemies: Squares<B>,
    pub(crate) occupied: Squares<B>,
}

impl<B: Board> Field<B> {
    /// Returns the sets of a position.
    #[inline]
    pub(crate) fn of(position: &Position<B>) -> Self
        ensures sets { AreSets B.geometry position.now result.men result.kings result.enemies result.occupied }
        ensures few { set.len result.enemies ≤ 20 }
        ensures position { IsPosition B.geometry position.now.cells }
    {
        Field::with_turn(position, position.turn())
    }

    /// Returns the sets of a position, as if it were this side's turn.
    #[inline]
    pub(crate) fn with_turn(position: &Position<B>, side: Side) -> Self
        ensures { AreSets B.geometry (with_turn position.now side)
            result.men result.kings result.enemies result.occupied }
    {
        let men = position.squares(side, Kind::Man);
        let kings = position.squares(side, Kind::King);
        let enemies = position.all_of(side.other());
        Field {
            men,
            kings,
            enemies,
            occupied: men.or(kings).or(enemies),
        }
    }

    /// Returns the sets without the piece on a square.
    #[inline]
    pub(crate) fn without(&self, from: Square<B>) -> Self
        ensures enemies { result.enemies ≡ self.now.enemies }
        ensures occupied { result.occupied ≡ set.remove self.now.occupied from }
    {
        Field {
            men: self.men.without(from),
            kings: self.kings.without(from),
            enemies: self.enemies,
            occupied: self.occupied.without(from),
        }
    }

    /// Returns these enemies without those next to which, in this direction, a piece stands or the board ends.
    #[inline]
    pub(crate) fn open_behind(&self, enemies: Squares<B>, direction: Dir) -> Squares<B>
        ensures { (c t : ℕ) → In c enemies → step B.geometry c direction ≡ Some t → OnBoard B.geometry c
            → (In t self.now.occupied → ⊥) → In c result }
    {
        let behind = enemies.shifted(direction).minus(self.occupied);
        behind.shifted(direction.opposite())
    }

    /// Returns whether something can be taken.
    #[inline]
    pub(crate) fn takes(&self) -> bool
        ensures { IsTrue result ↔ ((d : Dir) × Takes B.geometry self.now.men self.now.kings self.now.enemies
            self.now.occupied d) }
    {
        self.men_take() || self.kings_take()
    }

    /// Returns whether a man can take something.
    #[inline]
    pub(crate) fn men_take(&self) -> bool
        ensures { IsTrue result ↔ ((d : Dir) × (t : ℕ) × MenTake B.geometry self.now.men self.now.enemies
            self.now.occupied d t) }
    {
        let up = self
            .behind_men(Dir::UpLeft)
            .or(self.behind_men(Dir::UpRight));
        let down = self
            .behind_men(Dir::DownLeft)
            .or(self.behind_men(Dir::DownRight));
        any(up.or(down))
    }

    /// Returns whether a king can take something.
    #[inline]
    fn kings_take(&self) -> bool
        ensures { IsTrue result ↔ ((d : Dir) × (t : ℕ) × KingsTake B.geometry self.now.kings self.now.enemies
            self.now.occupied d t) }
    {
        any(self.kings) && slides_take(self.kings, self.enemies, self.occupied)
    }

    /// Returns whether a king can take something. It slides the kings without asking whether there are any.
    #[inline(always)]
    pub(crate) fn slide_to_take(&self) -> bool
        ensures { IsTrue result ↔ ((d : Dir) × (t : ℕ) × KingsTake B.geometry self.now.kings self.now.enemies
            self.now.occupied d t) }
    {
        let up = self
            .behind_kings(Dir::UpLeft)
            .or(self.behind_kings(Dir::UpRight));
        let down = self
            .behind_kings(Dir::DownLeft)
            .or(self.behind_kings(Dir::DownRight));
        any(up.or(down))
    }

    /// Returns the empty squares just beyond an enemy that is next to a man, in a direction.
    #[inline]
    fn behind_men(&self, direction: Dir) -> Squares<B>
        ensures { (t : ℕ) → In t result ↔ MenTake B.geometry self.now.men self.now.enemies self.now.occupied
            direction t }
    {
        let met = self.met_by_men(direction);
        met.shifted(direction).minus(self.occupied)
    }

    /// Returns the empty squares just beyond the first enemies that kings meet in a direction. All kings slide
    /// together.
    #[inline]
    fn behind_kings(&self, direction: Dir) -> Squares<B>
        ensures { (t : ℕ) → In t result ↔ KingsTake B.geometry self.now.kings self.now.enemies self.now.occupied
            direction t }
    {
        let reached = self.kings.slid_near(self.occupied, direction);
        let met = reached.shifted(direction).and(self.enemies);
        met.shifted(direction).minus(self.occupied)
    }

    /// Returns the enemies next to a man in a direction.
    #[inline]
    fn met_by_men(&self, direction: Dir) -> Squares<B>
        ensures { (c : ℕ) → In c result ↔ MenMeet B.geometry self.now.men self.now.enemies self.now.occupied
            direction c }
    {
        self.men.shifted(direction).and(self.enemies)
    }

    /// Returns all kings if one of them can take something in a direction, and else the empty set.
    #[inline]
    pub(crate) fn kings_before_enemy(&self, direction: Dir) -> Squares<B>
        ensures { (s : ℕ) → In s self.now.kings → ((t : ℕ) × KingsTake B.geometry self.now.kings self.now.enemies
            self.now.occupied direction t) → In s result }
    {
        if any(self.kings) && any(self.behind_kings(direction)) {
            self.kings
        } else {
            Squares::none()
        }
    }

    /// Returns the squares from which a man can take in a direction.
    #[inline]
    pub(crate) fn before_enemy(&self, direction: Dir) -> Squares<B>
        ensures { (s c t : ℕ) → OnBoard B.geometry s → In s self.now.men → step B.geometry s direction ≡ Some c
            → In c self.now.enemies → step B.geometry c direction ≡ Some t → (In t self.now.occupied → ⊥)
            → In s result }
    {
        let behind = self.met_by_men(direction).shifted(direction);
        let back = direction.opposite();
        behind.minus(self.occupied).shifted(back).shifted(back)
    }

    /// Returns a set with each square from which a capture begins in a direction, and maybe others.
    #[inline]
    pub(crate) fn may_take(&self, direction: Dir) -> Squares<B>
        ensures { (p : Placement) (s : ℕ) → AreSets B.geometry p self.now.men self.now.kings self.now.enemies
            self.now.occupied → CanTakeTowards B.geometry p direction s → In s result }
    {
        self.kings_before_enemy(direction)
            .or(self.before_enemy(direction))
    }

    /// Returns whether a piece of the side to move can go to the next square in a direction.
    #[inline]
    pub(crate) fn steps(&self, side: Side, direction: Dir) -> bool
        ensures { IsTrue result ↔ Steps B.geometry side self.now.men self.now.kings self.now.occupied direction }
    {
        any(self.next_free(side, direction))
    }

    /// Returns the empty squares to which a piece of the side to move can go one square in a direction.
    #[inline]
    pub(crate) fn next_free(&self, side: Side, direction: Dir) -> Squares<B>
        ensures { (t : ℕ) → In t result ↔ StepsOn B.geometry side self.now.men self.now.kings self.now.occupied
            direction t }
    {
        let movers = if may_go(Kind::Man, side, direction) {
            self.kings.or(self.men)
        } else {
            self.kings
        };
        movers.shifted(direction).minus(self.occupied)
    }

    /// Returns the empty squares to which a piece of the side to move can go one square.
    #[inline]
    pub(crate) fn all_next_free(&self, side: Side) -> Squares<B>
        ensures { (t : ℕ) → In t result ↔ ((d : Dir) × StepsOn B.geometry side self.now.men self.now.kings
            self.now.occupied d t) }
    {
        let up = self
            .next_free(side, Dir::UpLeft)
            .or(self.next_free(side, Dir::UpRight));
        let down = self
            .next_free(side, Dir::DownLeft)
            .or(self.next_free(side, Dir::DownRight));
        up.or(down)
    }
}

/// Returns whether one of these kings can take something. A function of its own, because few positions need it.
#[inline(never)]
fn slides_take<B: Board>(kings: Squares<B>, enemies: Squares<B>, occupied: Squares<B>) -> bool
    ensures { IsTrue result ↔ ((d : Dir) × (t : ℕ) × KingsTake B.geometry kings enemies occupied d t) }
{
    let field = Field {
        men: Squares::none(),
        kings,
        enemies,
        occupied,
    };
    field.slide_to_take()
}

/// Returns the next square in a direction, or `None` if it is occupied or past the edge.
#[inline]
pub(crate) fn free_step<B: Board>(
    occupied: Squares<B>,
    from: Square<B>,
    direction: Dir,
) -> Option<Square<B>>
    requires { OnBoard B.geometry from }
    ensures free { (p : Placement) → IsOccupied B.geometry p occupied
        → result ≡ plain.free_step B.geometry p from direction }
    ensures steps { IfSome result (λ t. step B.geometry from direction ≡ Some t) }
{
    let next = step(from, direction)?;
    if occupied.has(next) { None } else { Some(next) }
}

/// Returns whether the set has a square.
#[inline]
pub(crate) fn any<B: Board>(squares: Squares<B>) -> bool
    ensures { IsTrue result ↔ ((s : ℕ) × In s squares) }
{
    !squares.is_empty()
}

/// Returns whether the set has two squares or more.
#[inline]
pub(crate) fn has_two<B: Board>(squares: Squares<B>) -> bool
    ensures { IsTrue result ↔ HasTwo squares }
{
    match squares.split() {
        Some((_, others)) => any(others),
        None => false,
    }
}
