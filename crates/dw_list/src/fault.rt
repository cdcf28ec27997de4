//! Why a lister cannot go on after a list of moves.
use dw_solve::Stop;
use thiserror::Error;

/// Why the lines after a list of moves were not found.
#[derive(Clone, Copy, Debug, PartialEq, Eq, Error)]
pub enum AfterFault {
    /// The list is no line. The place is that of the first move with which it leaves all lines, counted from 1, or
    /// of the move that it lacks.
    #[error("1 not a line: {0}")]
    NotALine(usize),
    /// The search was stopped.
    #[error("2 stopped: {0}")]
    Stopped(Stop),
}
