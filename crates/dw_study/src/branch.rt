//! Beginnings of an author's solution, and their continuations.
ghost use Rattle.std.specs.Prelude.{◌≡◌, ◌↔◌, ◌++◌, ◌∷◌, [], Some, None, IfOk, OnOk, IsTrue, MatchOption, map, not};
ghost use Rattle.std.specs.List.{slice_get};
ghost use Rattle.dw_board.specs.Lists.{Member};
ghost use Rattle.dw_study.specs.inner.Checking.{AreChildren, AreOthers, IsAt, IsNodeOf, left_after};
ghost use Rattle.dw_moves.specs.Moves as of;

use crate::remark::Remark;
use dw_board::{Board, Position};
use dw_games::{Node, Tree};
use dw_moves::Move;
use dw_moves::listed::listed;
use std::alloc::{AllocError, Global};

/// A beginning of a path: its node, `None` at the root, and the position there; whether the attacker is to move, and
/// how many moves he has left.
#[derive(Clone, Copy)]
pub(crate) struct CheckNode<B: Board> {
    pub(crate) node: Option<Node>,
    pub(crate) position: Position<B>,
    pub(crate) attacks: bool,
    pub(crate) left: u8,
}

/// A node, the move before it, and the position after that move.
#[derive(Clone, Copy)]
pub(crate) struct Child<B: Board> {
    pub(crate) node: Node,
    pub(crate) mv: Move<B>,
    pub(crate) position: Position<B>,
}

/// The remarks on a beginning, and the children that are examined further.
#[derive(Drop)]
pub(crate) struct Seen<B: Board> {
    pub(crate) remarks: Vec<Remark<B>>,
    pub(crate) followed: Vec<Child<B>>,
}

impl<B: Board> CheckNode<B> {
    /// Returns the beginning with one move more.
    pub(crate) fn after(&self, child: &Child<B>) -> Self
        requires { child.now.position ≡ of.play B.geometry self.now.position child.now.mv }
        ensures { result ≡ record {
          node = Some child.now.node;
          position = of.play B.geometry self.now.position child.now.mv;
          attacks = not self.now.attacks;
          left = left_after self.now.attacks self.now.left;
        } }
    {
        CheckNode {
            node: Some(child.node),
            position: child.position,
            attacks: !self.attacks,
            left: if self.attacks {
                self.left.saturating_sub(1)
            } else {
                self.left
            },
        }
    }
}

/// Returns the children of a node, in the tree's order.
pub(crate) fn children<B: Board>(
    alloc: Global,
    tree: &Tree<B>,
    spot: &CheckNode<B>,
) -> Result<Vec<Child<B>>, AllocError>
    requires { (b : _) × IsAt B.geometry tree.now spot.now b }
    ensures { (b : _) → IsAt B.geometry tree.now spot.now b
        → IfOk result (λ children. AreChildren B.geometry spot.now.position tree.now.paths b children.items) }
{
    let mut children = Vec::new(alloc);
    let mut next = tree.first_child(spot.node);
    'children: while let Some(node) = next {
        if let Some(child) = child_at(tree, node) {
            push(&mut children, child)?;
        }
        next = tree.next_sibling(node);
    }
    Ok(children)
}

/// Returns a node with its move and its position, or `None` if the tree has no such node.
fn child_at<B: Board>(tree: &Tree<B>, node: Node) -> Option<Child<B>>
    ensures { MatchOption result (slice_get tree.now.paths node.0 ≡ None) (IsNodeOf B.geometry tree.now node) }
{
    Some(Child {
        node,
        mv: tree.mv(node)?,
        position: tree.position(Some(node))?,
    })
}

/// Returns the legal moves that are none of these children's, in order.
pub(crate) fn others<B: Board>(
    alloc: Global,
    position: &Position<B>,
    children: &[Child<B>],
) -> Result<Vec<Move<B>>, AllocError>
    ensures { IfOk result (λ others. AreOthers B.geometry position.now (map (λ c. c.mv) children.now)
        others.items) }
{
    let mut others = Vec::new(alloc);
    let list = listed(alloc, position)?;
    'moves: for item in list.as_slice() {
        if !has(children, &item.step) {
            push(&mut others, item.step)?;
        }
    }
    Ok(others)
}

/// Returns whether one of these children is by this move.
fn has<B: Board>(children: &[Child<B>], mv: &Move<B>) -> bool
    ensures { IsTrue result ↔ Member mv.now (map (λ c. c.mv) children.now) }
{
    'children: for child in children {
        if child.mv == *mv {
            return true;
        }
    }
    false
}

/// Adds an item to a list.
pub(crate) fn push<T: Drop>(list: &mut Vec<T>, item: T) -> Result<(), AllocError>
    ensures { OnOk result (list.new.items ≡ list.old.items ++ item ∷ []) }
{
    list.push(item)?;
    Ok(())
}
