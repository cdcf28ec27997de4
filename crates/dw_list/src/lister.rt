//! The lines of a position one by one.
ghost use Rattle.std.specs.Prelude.{◌≡◌, ◌≤◌, ◌↔◌, List, IfOk, IfErr, OnOk, OnErr, length, IfSome};
ghost use Rattle.dw_solve.specs.declared.stop.Stop.TheVariants.{Limit};
ghost use Rattle.dw_list.specs.declared.fault.AfterFault.TheVariants.{Stopped};
ghost use Rattle.dw_solve.specs.Searching.{IsCounted};
ghost use Rattle.dw_solve.specs.Work.{Searched};

use crate::fault::AfterFault;
use crate::line_walk::{LineWalk, walk_along};
use crate::stack::Stack;
use crate::walk::walk;
use dw_board::{Board, Position};
use dw_memo::Memo;
use dw_moves::Move;
use dw_solve::{Guide, Solver, Stop};
use std::alloc::Global;

/// The lines of a position in ascending order, each once, without a list of them. It borrows the solver that answers
/// which moves keep a win.
#[derive(Drop)]
pub struct Lister<'a, B: Board, M: Memo<B>, G: Guide<B>> {
    solver: &'a mut Solver<B, M, G>,
    stack: Stack<B>,
}

impl<'a, B: Board, M: Memo<B>, G: Guide<B>> Lister<'a, B, M, G> {
    ghost use Rattle.dw_moves.specs.Moves as of;
    ghost use Rattle.dw_solve.specs.Lines.{Lines};
    ghost use Rattle.dw_solve.specs.Questions.{moment_of};
    ghost use Rattle.dw_list.specs.LineStack.{AreToCome};
    ghost use Rattle.dw_list.specs.LineWalk.{IsAlong};
    ghost use Rattle.dw_list.specs.Faults.{IsRefusal, cut_after};
    ghost use Rattle.dw_list.specs.Listing.{lender, solver_of, stack_of};
    ghost use Rattle.std.specs.Prelude.{⊤, []};
    ghost use Rattle.std.specs.Borrow.{sem, follows_so};
    ghost use mathlib.Core.Option.{none};
    ghost use mir.Syntax.{named};
    ghost use Rattle.dw_list.specs.contracts.lister.Lister.{the_row};
    ghost use Rattle.dw_list.specs.Lending.{LendsNext};

    /// Returns a lister of all lines in which the side to move wins within `moves` moves, which must be from 1 to 20.
    /// It does not search yet, and allocates nothing.
    pub fn start(
        solver: &'a mut Solver<B, M, G>,
        position: &Position<B>,
        moves: u8,
    ) -> Lister<'a, B, M, G>
        requires some { 1 ≤ moves }
        requires few { moves ≤ 20 }
        ensures lender { lender result ≡ solver.entry.ghost_name }
        ensures solver { solver_of result ≡ solver.old }
        ensures position { (stack_of result).position ≡ position.now }
        ensures moves { (stack_of result).moves ≡ moves }
        ensures to_come { (lines : List (List of.Move)) → Lines B.geometry position.now moves lines
            ↔ AreToCome B.geometry (stack_of result) lines }
    {
        Lister {
            solver,
            stack: Stack::new(position, moves),
        }
    }

    /// Continues after a line: the lines still to come become those after it, and the earlier ones are not searched. If
    /// the moves are no line, or the search is stopped, the lines still to come stay the same.
    pub fn after(&mut self, alloc: Global, line: &[Move<B>]) -> Result<(), AfterFault>
        ensures lender { lender self.new ≡ lender self.old }
        ensures after { OnOk result (IsAlong B.geometry (stack_of self.old).position (stack_of self.old).moves line.now
            (stack_of self.new)) }
        ensures refused { IfErr result (IsRefusal B.geometry (stack_of self.old).position (stack_of self.old).moves
            line.now) }
        ensures same { OnErr result (stack_of self.new ≡ stack_of self.old) }
        ensures count { IsCounted (solver_of self.old).expanded (solver_of self.old).limit (solver_of self.new).expanded
            (solver_of self.new).limit }
        ensures stop { IfErr result (λ fault. fault ≡ Stopped Limit
            → (solver_of self.new).expanded ≡ (solver_of self.new).limit) }
        ensures searched { Searched B.geometry (stack_of self.old).moves (cut_after result (stack_of self.old).moves)
            (moment_of M.content M.dropped (solver_of self.old)) (moment_of M.content M.dropped (solver_of self.new)) }
    {
        let position = *self.stack.position();
        let moves = self.stack.moves();
        match walk_along(alloc, self.solver, &position, moves, line) {
            Err(stop) => Err(AfterFault::Stopped(stop)),
            Ok(LineWalk::Place(place)) => Err(AfterFault::NotALine(place)),
            Ok(LineWalk::Along(stack)) => {
                self.stack = stack;
                Ok(())
            }
        }
    }

    /// Returns the next line, of at most 39 moves and borrowed from the lister, or `None` if none is left. After a stop
    /// the lines still to come are the same, and the call can be repeated.
    pub fn next(&mut self, alloc: Global) -> Result<Option<&[Move<B>]>, Stop>
        ensures few { IfOk result (λ given. IfSome given (λ line. length line.now ≤ 39)) }
        ensures* after { sem 𝓛 (follows_so
            (the_row (record { mir = named 1; lft = [] }) B.row M.row G.row B.Board M.Memo)
            (the_row (record { mir = named 1; lft = [] }) B.row M.row G.row B.Board M.Memo)
            self.entry.ghost_name none (λ _ _. ⊤)
            (λ left. LendsNext B.geometry M.content M.dropped self.old left result)) }
    {
        if walk(alloc, self.solver, &mut self.stack)? {
            Ok(Some(self.stack.line()))
        } else {
            Ok(None)
        }
    }

    /// Returns the number of positions that the solver has expanded so far.
    pub fn expanded(&self) -> u64
        ensures { result ≡ (solver_of self.now).expanded }
    {
        self.solver.expanded()
    }

    /// Returns the number of positions that the solver may expand in all.
    pub fn limit(&self) -> u64
        ensures limit { result ≡ (solver_of self.now).limit }
        ensures within { (solver_of self.now).expanded ≤ (solver_of self.now).limit }
    {
        self.solver.limit()
    }

    /// Returns the number of entries that the solver's memo has lost so far.
    pub fn dropped(&self) -> u64
        ensures { result ≡ M.dropped (solver_of self.now).memo }
    {
        self.solver.dropped()
    }

    /// Ends the listing, and gives the solver back.
    pub fn into_solver(self) -> &'a mut Solver<B, M, G>
        ensures lender { result.ghost_name ≡ lender self.entry }
        ensures solver { result.now ≡ solver_of self.entry }
    {
        let Lister { solver, .. } = self;
        solver
    }

    /// Sets the solver's limit, which must be at least 1, and at least the number of positions expanded so far.
    pub fn set_limit(&mut self, limit: u64)
        requires some { 1 ≤ limit }
        requires enough { (solver_of self.old).expanded ≤ limit }
        ensures lender { lender self.new ≡ lender self.old }
        ensures stack { stack_of self.new ≡ stack_of self.old }
        ensures solver { solver_of self.new ≡ record (solver_of self.old) { limit = limit } }
    {
        self.solver.set_limit(limit);
    }
}
