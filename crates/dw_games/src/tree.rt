//! The tree of an author's solution.
ghost use Rattle.std.specs.Prelude.{◌≡◌, ◌++◌, ◌∷◌, [], OnOk, OnErr, IfOk, None, Some, MatchOption, slice_get, length};
ghost use Rattle.std.specs.Prelude.{◌==◌, ◌+◌, ◌≤◌, ◌<◌, option_map};
ghost use Rattle.dw_moves.specs.Moves as of;
ghost use Rattle.dw_games.specs.Play.{after};

pub use crate::branches::Node;
use crate::branches::{Branch, ChildOrLast, child_by, first_child, link, next_sibling};
use dw_board::{Board, Position};
use dw_moves::Move;
use std::alloc::{AllocError, Global};
use std::marker::Model;

/// The moves of an author's solution, all legal, from the position of the problem. Each beginning of a path is in it
/// once, in the order of its first appearance in the text. The root, before the first move, is no node.
#[derive(Drop)]
pub struct Tree<B: Board> {
    start: Position<B>,
    branches: Vec<Branch<B>>,
}

impl<B: Board> Model for Tree<B> {
    ghost use Rattle.dw_games.specs.Walk.{PlayedTree};
    ghost use Rattle.dw_games.specs.inner.TreeCodes.{tree_code};

    ghost Value = { PlayedTree };

    ghost coded = { tree_code };

    ghost use Rattle.dw_games.specs.inner.Branches.{steps_of, paths_of, IsPlayedTree};

    ghost view = { λ t. record { start = t.start; paths = paths_of (steps_of t.branches.items) } };

    ghost invariant = { λ t. IsPlayedTree B.geometry t.start t.branches.items };
}

impl<B: Board> Tree<B> {
    ghost use Rattle.dw_games.specs.Walk.{place_of, beginning_at, CanFollow, IsNext};
    ghost use Rattle.dw_games.specs.inner.Noting.{IsNoted};

    /// Returns the tree without a move from a position.
    pub(crate) fn new(alloc: Global, start: Position<B>) -> Self
        ensures { result ≡ record { start = start; paths = [] } }
    {
        Tree {
            start,
            branches: Vec::new(alloc),
        }
    }

    /// Returns whether it has no move.
    pub(crate) fn is_empty(&self) -> bool
        ensures { result ≡ (length self.now.paths == 0) }
    {
        self.len() == 0
    }

    /// Returns the position that it starts from.
    pub fn start(&self) -> Position<B>
        ensures { result ≡ self.now.start }
    {
        self.start
    }

    /// Returns how many nodes it has.
    pub fn len(&self) -> usize
        ensures { result ≡ length self.now.paths }
    {
        self.branches.as_slice().len()
    }

    /// Returns the node of a place, from 0 on, in the order in which the beginnings first stand in the text.
    pub fn node(&self, place: usize) -> Option<Node>
        ensures { MatchOption result (length self.now.paths ≤ place)
            (λ n. (n.0 ≡ place) × (place < length self.now.paths)) }
    {
        if place < self.len() {
            Some(Node(place))
        } else {
            None
        }
    }

    /// Returns the node of the first move after a node, or after the root.
    pub fn first_child(&self, node: Option<Node>) -> Option<Node>
        ensures { MatchOption (beginning_at self.now.paths (place_of node)) (result ≡ None)
            (λ b. IsNext self.now.paths b 0 (place_of result)) }
    {
        first_child(self.branches.as_slice(), node)
    }

    /// Returns the node of the next alternative to a node.
    pub fn next_sibling(&self, node: Node) -> Option<Node>
        ensures none { length self.now.paths ≤ node.0 → result ≡ None }
        ensures next { (b : _) (m : _) → slice_get self.now.paths node.0 ≡ Some (b ++ m ∷ [])
            → IsNext self.now.paths b (node.0 + 1) (place_of result) }
    {
        next_sibling(self.branches.as_slice(), node)
    }

    /// Returns the position after the moves to a node, or `None` if the tree has no such node.
    pub fn position(&self, node: Option<Node>) -> Option<Position<B>>
        ensures { result ≡ option_map (after B.geometry self.now.start) (beginning_at self.now.paths (place_of node)) }
    {
        match node {
            Some(node) => Some(self.branches.get(node.0)?.position),
            None => Some(self.start),
        }
    }

    /// Returns the move before a node, which is legal there, or `None` if the tree has no such node.
    pub fn mv(&self, node: Node) -> Option<Move<B>>
        ensures { MatchOption result (slice_get self.now.paths node.0 ≡ None)
            (λ m. (b : _) × (slice_get self.now.paths node.0 ≡ Some (b ++ m ∷ []))
            × CanFollow B.geometry self.now.start b m) }
    {
        Some(self.branches.get(node.0)?.mv)
    }

    /// Returns the node before the move before a node, or `None` if that is the root.
    pub fn parent(&self, node: Node) -> Option<Node>
        ensures { (b : _) (m : _) → slice_get self.now.paths node.0 ≡ Some (b ++ m ∷ [])
            → beginning_at self.now.paths (place_of result) ≡ Some b }
    {
        self.branches.get(node.0)?.parent
    }

    /// Notes a move after a node, with the position after it, and returns its node. The tree must have the first node,
    /// the move must be legal there, and fewer than `MAX_PATH` moves may come before it. A new move becomes the last
    /// child.
    pub(crate) fn note(
        &mut self,
        parent: Option<Node>,
        mv: &Move<B>,
        position: &Position<B>,
    ) -> Result<Node, AllocError>
        requires { (b : _) × (beginning_at self.old.paths (place_of parent) ≡ Some b)
            × CanFollow B.geometry self.old.start b mv.now
            × (position.now ≡ of.play B.geometry (after B.geometry self.old.start b) mv.now) }
        ensures start { self.new.start ≡ self.old.start }
        ensures noted { OnOk result ((b : _) → beginning_at self.old.paths (place_of parent) ≡ Some b
            → IsNoted self.old.paths (b ++ mv.now ∷ []) self.new.paths) }
        ensures node { IfOk result (λ n. (b : _) → beginning_at self.old.paths (place_of parent) ≡ Some b
            → slice_get self.new.paths n.0 ≡ Some (b ++ mv.now ∷ [])) }
        ensures refused { OnErr result (self.new ≡ self.old) }
    {
        let last = match child_by(self.branches.as_slice(), parent, mv) {
            ChildOrLast::Child(node) => return Ok(node),
            ChildOrLast::Last(last) => last,
        };
        let place = self.branches.as_slice().len();
        self.branches.push(Branch {
            mv: *mv,
            position: *position,
            parent,
            first_child: None,
            next_sibling: None,
        })?;
        link(&mut self.branches, parent, last, Node(place));
        Ok(Node(place))
    }
}
