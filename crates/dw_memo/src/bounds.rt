//! Bounds: the known facts of a position.
ghost use Rattle.std.specs.Prelude.{◌≡◌, is_some};
ghost use Rattle.dw_memo.specs.Bounding as of;
ghost use Rattle.dw_memo.specs.inner.Pairs.{depth};

/// Known facts of a position: a number of moves in which the side to move cannot force a win, and one in which it can.
/// Only its own moves count. `None` says nothing.
#[derive(Clone, Copy, Debug, Default, PartialEq, Eq)]
pub struct Bounds {
    /// There is no win in this number of moves or fewer.
    pub fails: Option<u8>,
    /// There is a win in this number of moves or more.
    pub wins: Option<u8>,
}

impl Bounds {
    /// Returns whether there is a win in `moves` moves, or `None` if the bounds do not decide it.
    pub fn decide(self, moves: u8) -> Option<bool>
        ensures value { result ≡ of.decided self moves }
        ensures decides { is_some result ≡ of.decides self moves }
    {
        if self.wins.is_some_and(|wins| wins <= moves) {
            Some(true)
        } else if self.fails.is_some_and(|fails| moves <= fails) {
            Some(false)
        } else {
            None
        }
    }

    /// Returns these bounds with a win in `moves` moves. An earlier win in fewer moves stays.
    pub fn with_win(self, moves: u8) -> Self
        ensures { result ≡ of.with_win self moves }
    {
        let wins = match self.wins {
            Some(wins) => wins.min(moves),
            None => moves,
        };
        Bounds {
            wins: Some(wins),
            ..self
        }
    }

    /// Returns these bounds without a win in `moves` moves. An earlier bound for more moves stays.
    pub fn with_fail(self, moves: u8) -> Self
        ensures { result ≡ of.with_fail self moves }
    {
        let fails = match self.fails {
            Some(fails) => fails.max(moves),
            None => moves,
        };
        Bounds {
            fails: Some(fails),
            ..self
        }
    }

    /// Returns the depth: the greater of the two numbers of moves, or 0.
    #[inline]
    pub(crate) fn depth(self) -> u8
        ensures { result ≡ depth self }
    {
        self.fails.unwrap_or(0).max(self.wins.unwrap_or(0))
    }
}
