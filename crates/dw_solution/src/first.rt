//! The first lines of a forced win.
ghost use Rattle.std.specs.Prelude.{◌≡◌, ◌≤◌, ◌<◌, ◌↔◌, ◌++◌, ◌∷◌, [], IfOk, IsErrOf, IsTrue, length, take, List, ℕ};
ghost use Rattle.std.specs.Prelude.{nat_lt};
ghost use Rattle.dw_board.specs.Placement.{Placement};
ghost use Rattle.dw_moves.specs.Moves as of;
ghost use Rattle.dw_solve.specs.declared.stop.Stop.TheVariants.{Limit};
ghost use Rattle.dw_solve.specs.Searching.{IsCounted};
ghost use Rattle.dw_solve.specs.Lines.{Lines};
ghost use Rattle.dw_list.specs.Listing.{lender, solver_of, stack_of};
ghost use Rattle.dw_solution.specs.inner.Taking.{AreTaken, Takes, GoesOn};

use crate::line_tree::LineTree;
use crate::listed::FirstLines;
use dw_board::{Board, Position};
use dw_list::Lister;
use dw_memo::Memo;
use dw_solve::{Guide, Solver, Stop};
use dw_stipulation::MoveCount;
use std::alloc::Global;

/// Lists the first `most` lines in which the side to move wins within `moves` moves, and says whether there are more.
/// It lists the lines one by one, and holds only their tree. After a stop the call can be repeated.
pub fn first_lines<B: Board, M: Memo<B>, G: Guide<B>>(
    alloc: Global,
    solver: &mut Solver<B, M, G>,
    position: &Position<B>,
    moves: MoveCount,
    most: usize,
) -> Result<FirstLines<B>, Stop>
    ensures lines { (lines : List (List of.Move)) → Lines B.geometry position.now moves.value lines
        → IfOk result (λ first. first ≡ record {
          start = position.now;
          lines = take most lines;
          more = nat_lt most (length lines);
        }) }
    ensures count { IsCounted solver.old.expanded solver.old.limit solver.new.expanded solver.new.limit }
    ensures stop { IsErrOf result Limit → solver.new.expanded ≡ solver.new.limit }
{
    dw_list::laws::lines_exist();
    solver.keeps_its_limit();
    let mut lister = Lister::start(solver, position, moves.value);
    let first = taken(alloc, &mut lister, most);
    // A lister that is only dropped would not tell how many positions its solver has expanded.
    let _ = lister.into_solver();
    let (tree, more) = first?;
    Ok(FirstLines {
        position: *position,
        tree,
        more,
    })
}

/// Takes the first `most` lines of a lister, which must be at its beginning, and says whether there are more.
fn taken<B: Board, M: Memo<B>, G: Guide<B>>(
    alloc: Global,
    lister: &mut Lister<'_, B, M, G>,
    most: usize,
) -> Result<(LineTree<B>, bool), Stop>
    requires first { (p : Placement) × (n : ℕ) × AreTaken B.geometry p n (stack_of lister.old) [] }
    requires counted { (solver_of lister.old).expanded ≤ (solver_of lister.old).limit }
    ensures lender { lender lister.new ≡ lender lister.old }
    ensures lines { (p : Placement) (n : ℕ) (lines : List (List of.Move))
        → AreTaken B.geometry p n (stack_of lister.old) [] → Lines B.geometry p n lines
        → IfOk result (λ first. (first.0 ≡ take most lines) × (IsTrue first.1 ↔ (most < length lines))) }
    ensures count { IsCounted (solver_of lister.old).expanded (solver_of lister.old).limit
        (solver_of lister.new).expanded (solver_of lister.new).limit }
    ensures stop { IsErrOf result Limit → (solver_of lister.new).expanded ≡ (solver_of lister.new).limit }
{
    dw_list::laws::lines_exist();
    let mut tree = LineTree::new(alloc);
    'lines: while tree.len() < most {
        if !take_next(alloc, lister, &mut tree)? {
            return Ok((tree, false));
        }
    }
    let more = has_next(alloc, lister)?;
    Ok((tree, more))
}

/// Takes the next line of a lister, if there is one, and says whether there was one.
fn take_next<B: Board, M: Memo<B>, G: Guide<B>>(
    alloc: Global,
    lister: &mut Lister<'_, B, M, G>,
    tree: &mut LineTree<B>,
) -> Result<bool, Stop>
    requires { (p : Placement) × (n : ℕ) × AreTaken B.geometry p n (stack_of lister.old) tree.old }
    ensures lender { lender lister.new ≡ lender lister.old }
    ensures taken { (p : Placement) (n : ℕ) → AreTaken B.geometry p n (stack_of lister.old) tree.old
        → IfOk result (λ some. Takes B.geometry p n some (stack_of lister.new) tree.old tree.new) }
    ensures count { IsCounted (solver_of lister.old).expanded (solver_of lister.old).limit
        (solver_of lister.new).expanded (solver_of lister.new).limit }
    ensures stop { IsErrOf result Limit → (solver_of lister.new).expanded ≡ (solver_of lister.new).limit }
{
    dw_moves::laws::moves_have_keys();
    dw_list::laws::none_begins();
    match lister.next(alloc) {
        Err(stop) => Err(stop),
        Ok(None) => Ok(false),
        Ok(Some(line)) => {
            tree.push(line)?;
            Ok(true)
        }
    }
}

/// Passes the next line of a lister, and returns whether there was one.
fn has_next<B: Board, M: Memo<B>, G: Guide<B>>(
    alloc: Global,
    lister: &mut Lister<'_, B, M, G>,
) -> Result<bool, Stop>
    ensures lender { lender lister.new ≡ lender lister.old }
    ensures more { (p : Placement) (n : ℕ) (taken : List (List of.Move))
        → AreTaken B.geometry p n (stack_of lister.old) taken → IfOk result (λ more. GoesOn B.geometry p n more taken) }
    ensures count { IsCounted (solver_of lister.old).expanded (solver_of lister.old).limit
        (solver_of lister.new).expanded (solver_of lister.new).limit }
    ensures stop { IsErrOf result Limit → (solver_of lister.new).expanded ≡ (solver_of lister.new).limit }
{
    match lister.next(alloc) {
        Err(stop) => Err(stop),
        Ok(None) => Ok(false),
        Ok(Some(_)) => Ok(true),
    }
}
