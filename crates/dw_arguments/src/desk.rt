//! The requests of `dw-desk`.
ghost use Rattle.std.specs.Prelude.{◌≤◌};

use crate::certify::CertifyArgs;
use crate::check::CheckArgs;
use crate::choices::{BoardSize, MemoKind};
use crate::find::FindArgs;
use crate::mend::MendArgs;
use crate::moves::MovesArgs;
use crate::page::PageArgs;
use crate::portion::Portion;
use crate::same::SameArgs;
use crate::solution::SolutionArgs;
use dw_notation::Form;

/// The task of a command.
#[derive(Clone, Copy)]
pub enum Task<'a> {
    /// The number of moves and the verdict are found.
    Find(FindArgs),
    /// The solution is checked.
    Check(CheckArgs),
    /// The problem is written as a game, with its solution.
    Solution(SolutionArgs),
    /// The effect of each first move of the first chosen problem is written.
    Moves(MovesArgs),
    /// The problems are put on a page.
    Page(PageArgs<'a>),
    /// The problems that repeat an earlier one are written.
    Same(SameArgs),
    /// The certificate of the first chosen problem is written.
    Certify(CertifyArgs),
    /// The sound neighbours of the first chosen problem are written.
    Mend(MendArgs),
    /// The token of this line of the first chosen problem is written.
    Token { line: &'a str },
}

/// The request that the arguments of `dw-desk` make.
#[derive(Clone, Copy)]
pub struct DeskArgs<'a> {
    pub task: Task<'a>,
    pub board: BoardSize,
    pub form: Form,
    pub portion: Portion,
    pub memo: MemoKind,
    /// The most positions that the memo keeps, `MIN_CAPACITY` to `MAX_CAPACITY`.
    pub cache: usize,
    /// Whether the progress line was asked for.
    pub progress: bool,
    /// The file to read; `None` stands for standard input.
    pub file: Option<&'a str>,
    pub ghost some_kept: { 1 ≤ cache },
    pub ghost few_kept: { cache ≤ 4_000_000 },
}
