//! The comment before a movetext.
ghost use Rattle.std.specs.Prelude.{◌≡◌, ◌<◌, ◌^◌};
ghost use Rattle.dw_solution.specs.Movetext.{verdict_word};

/// A verdict without its moves.
#[derive(Clone, Copy, Debug, PartialEq, Eq)]
pub enum VerdictKind {
    /// There is no win within the moves.
    Unsolvable,
    /// Several first moves win, or there is a win in fewer moves.
    Cooked,
    /// One first move wins, and later there is a choice.
    Dual,
    /// One move wins at the start, and one at each later turn.
    Sound,
}

/// A verdict and the number of moves that it speaks of.
#[derive(Clone, Copy, Debug, PartialEq, Eq)]
pub struct Heading {
    pub kind: VerdictKind,
    pub moves: u8,
}

impl VerdictKind {
    /// Returns its word in movetexts.
    pub fn word(self) -> &'static str
        ensures { result.now ≡ verdict_word self }
    {
        match self {
            VerdictKind::Unsolvable => "unsolvable",
            VerdictKind::Cooked => "cooked",
            VerdictKind::Dual => "dual",
            VerdictKind::Sound => "sound",
        }
    }
}

impl Heading {
    /// States that the number of moves fits a byte. This law does nothing.
    pub(crate) fn keeps_its_range(self)
        ensures { self.moves < 2 ^ 8 }
    {}
}
