//! The numbers of problems.
ghost use Rattle.std.specs.Prelude.{◌≡◌, ◌+◌, ◌<◌, ◌≤◌, MatchBool, Err, nat_lt, if◌then◌else◌};
ghost use Rattle.dw_notation.specs.declared.problems.ProblemFault.TheVariants.{TooManyProblems};

use super::{MAX_PROBLEMS, Problem, ProblemFault};
use dw_board::{Board, Position};

/// Numbers the problems of a text from 1 on. One more than there may be is `TooManyProblems`, and it is the last.
#[derive(Clone, Copy)]
pub struct Numbering {
    handed: u32,
}

impl Numbering {
    ghost use Rattle.dw_notation.specs.Numbering.{handed_out};

    /// Returns a numbering before the first problem.
    pub fn new() -> Numbering
        ensures { handed_out result ≡ 0 }
    {
        Numbering { handed: 0 }
    }

    /// Returns whether the last problem was numbered, the one that is `TooManyProblems`.
    pub fn is_over(self) -> bool
        ensures { MatchBool result (MAX_PROBLEMS < handed_out self) (handed_out self ≤ MAX_PROBLEMS) }
    {
        self.handed > MAX_PROBLEMS
    }

    /// Returns the next problem with this content, or as `TooManyProblems` if it is one too many. After that one it
    /// returns the same again.
    pub fn hand_out<B: Board>(&mut self, found: Result<Position<B>, ProblemFault>) -> Problem<B>
        ensures more { handed_out self.old ≤ MAX_PROBLEMS → handed_out self.new ≡ handed_out self.old + 1 }
        ensures last { MAX_PROBLEMS < handed_out self.old → handed_out self.new ≡ handed_out self.old }
        ensures number { result.number ≡ handed_out self.new }
        ensures found { result.found
            ≡ (if nat_lt (handed_out self.old) MAX_PROBLEMS then found else Err TooManyProblems) }
    {
        let found = if self.handed < MAX_PROBLEMS {
            found
        } else {
            Err(ProblemFault::TooManyProblems)
        };
        if !self.is_over() {
            self.handed += 1;
        }
        Problem {
            number: self.handed,
            found,
        }
    }
}
