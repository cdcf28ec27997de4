//! The nodes of a tree, in a list, and the links between them.
ghost use Rattle.std.specs.Prelude.{◌≡◌, ◌↔◌, ◌+◌, ◌<◌, None, Some, true, MatchOption, slice_get, length};
ghost use Rattle.dw_games.specs.Walk.{place_of};
ghost use Rattle.dw_games.specs.inner.Branches.{Hang, steps_of, firsts_of, nexts_of, IsFirstChild, IsPlace};
ghost use Rattle.dw_games.specs.inner.Branches.{first_linked, next_linked, positions_of, IsChildOrLast};

use dw_board::{Board, Position};
use dw_moves::Move;

/// A place in a tree, after at least one move.
#[derive(Clone, Copy, Debug, PartialEq, Eq)]
pub struct Node(pub(crate) usize);

/// A node in the list: the move to it, the position after that, its parent (`None` at the root), its first child, and
/// its next sibling.
#[derive(Drop)]
pub(crate) struct Branch<B: Board> {
    pub(crate) mv: Move<B>,
    pub(crate) position: Position<B>,
    pub(crate) parent: Option<Node>,
    pub(crate) first_child: Option<Node>,
    pub(crate) next_sibling: Option<Node>,
}

/// The result of a search among the children of a node: the child by a move, or the last child, if no child is by it.
pub(crate) enum ChildOrLast {
    Child(Node),
    Last(Option<Node>),
}

/// Returns the first child of a node, or of the root.
pub(crate) fn first_child<B: Board>(branches: &[Branch<B>], node: Option<Node>) -> Option<Node>
    requires { Hang branches.now }
    ensures { IsFirstChild (steps_of branches.now) (place_of node) 0 (place_of result) }
{
    match node {
        Some(above) => branches.get(above.0)?.first_child,
        None if branches.is_empty() => None,
        None => Some(Node(0)),
    }
}

/// Returns the next child of the parent of a node.
pub(crate) fn next_sibling<B: Board>(branches: &[Branch<B>], node: Node) -> Option<Node>
    requires { Hang branches.now }
    ensures { MatchOption (slice_get (steps_of branches.now) node.0) (result ≡ None)
        (λ s. IsFirstChild (steps_of branches.now) s.parent (node.0 + 1) (place_of result)) }
{
    branches.get(node.0)?.next_sibling
}

/// Returns the child of a node by a move. If no child is by this move, it returns the last child, if there is one.
pub(crate) fn child_by<B: Board>(
    branches: &[Branch<B>],
    parent: Option<Node>,
    mv: &Move<B>,
) -> ChildOrLast
    requires { Hang branches.now }
    ensures { IsChildOrLast (steps_of branches.now) (place_of parent) mv.now result }
{
    let mut last = None;
    let mut next = first_child(branches, parent);
    'siblings: while let Some(node) = next {
        if is_by(branches, node, mv) {
            return ChildOrLast::Child(node);
        }
        last = next;
        next = next_sibling(branches, node);
    }
    ChildOrLast::Last(last)
}

/// Returns whether the last move of a node is this move.
fn is_by<B: Board>(branches: &[Branch<B>], node: Node, mv: &Move<B>) -> bool
    requires { node.0 < length branches.now }
    ensures { (parent : _) (m : _) → slice_get (steps_of branches.now) node.0
        ≡ Some (record { parent = parent; mv = m }) → (result ≡ true) ↔ (m ≡ mv.now) }
{
    let other = branches[node.0].mv;
    other == *mv
}

/// Links a new node: from `last`, the sibling before it, or else from its parent. The first node of all needs no link.
pub(crate) fn link<B: Board>(
    branches: &mut Vec<Branch<B>>,
    parent: Option<Node>,
    last: Option<Node>,
    node: Node,
)
    requires parent { IsPlace (steps_of branches.old.items) (place_of parent) }
    requires last { IsPlace (steps_of branches.old.items) (place_of last) }
    ensures steps { steps_of branches.new.items ≡ steps_of branches.old.items }
    ensures positions { positions_of branches.new.items ≡ positions_of branches.old.items }
    ensures firsts { firsts_of branches.new.items
        ≡ first_linked (firsts_of branches.old.items) (place_of last) (place_of parent) node.0 }
    ensures nexts { nexts_of branches.new.items
        ≡ next_linked (nexts_of branches.old.items) (place_of last) node.0 }
{
    if let Some(before) = last {
        branches[before.0].next_sibling = Some(node);
    } else if let Some(above) = parent {
        branches[above.0].first_child = Some(node);
    }
}
