//! Facts: the bounds of a position with their age.
ghost use Rattle.std.specs.Prelude.{◌≡◌, ◌+◌, ◌-◌, min};
ghost use Rattle.dw_memo.specs.inner.Pairs.{depth};
ghost use Rattle.std.specs.Option.{option_map};
ghost use Rattle.dw_memo.specs.inner.Pairs as of;

use crate::bounds::Bounds;

/// The age that reduces the value of a fact by one move.
const AGE_OF_A_MOVE: u8 = 16;

/// The bounds of a position, and their age, at most 255. In a pair, the age counts the facts of two moves or more that
/// came into the other place since. In an `LruMemo` it counts how often the entry lived on.
#[derive(Clone, Copy)]
pub(crate) struct Fact {
    pub(crate) bounds: Bounds,
    pub(crate) age: u8,
}

impl Fact {
    /// Returns a new fact.
    #[inline]
    pub(crate) fn new(bounds: Bounds) -> Self
        ensures { result ≡ record { bounds = bounds; age = 0 } }
    {
        Fact { bounds, age: 0 }
    }

    /// Returns the fact one step older.
    #[inline]
    pub(crate) fn older(self) -> Self
        ensures { result ≡ record self { age = min (self.age + 1) 255 } }
    {
        Fact {
            age: self.age.saturating_add(1),
            ..self
        }
    }

    /// Returns the value: the moves that its bounds decide, less one for each sixteen of age.
    #[inline]
    pub(crate) fn worth(self) -> u8
        ensures { result ≡ of.fact_worth self }
    {
        self.bounds.depth().saturating_sub(self.age / AGE_OF_A_MOVE)
    }

    /// Returns its remaining lives: the moves that its bounds decide, less its age.
    #[inline]
    pub(crate) fn lives(self) -> u8
        ensures { result ≡ depth self.bounds - self.age }
    {
        self.bounds.depth().saturating_sub(self.age)
    }
}

/// Returns the bounds of a fact, if there is one.
#[inline]
pub(crate) fn bounds_of(fact: Option<Fact>) -> Option<Bounds>
    ensures { result ≡ option_map (λ f. f.bounds) fact }
{
    Some(fact?.bounds)
}
