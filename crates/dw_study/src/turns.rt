//! The number of moves that the attacker makes in an author's solution.
ghost use Rattle.std.specs.Prelude.{◌≤◌};
ghost use Rattle.dw_study.specs.Turns.{HasTurns};

use crate::beginning::moves_to;
use dw_board::Board;
use dw_games::Tree;

/// Returns the greatest number of moves that the attacker makes on a path of a tree, 0 to 20.
pub fn turns_of<B: Board>(tree: &Tree<B>) -> u8
    ensures turns { HasTurns tree.now.paths result }
    ensures few { result ≤ 20 }
{
    let mut most = 0;
    'nodes: for place in 0..tree.len() {
        if let Some(moves) = moves_to(tree, tree.node(place)) {
            let turns = (moves.len() + 1) / 2;
            most = turns.max(most);
        }
    }
    most as u8
}
