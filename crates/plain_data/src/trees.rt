ghost use Rattle.std.specs.Prelude.{◌≡◌, ◌≤◌, ◌<◌, ◌^◌, [], ◌∷◌, ◌++◌, length, IfOk, MatchOption};
ghost use Rattle.std.specs.Option.{option_copied};
ghost use Rattle.plain_data.specs.Pairs.{lookup, with, without, InOrder};

use crate::balancing::{balance, joined};
use crate::shares::Shared;
use crate::texts::Text;
use std::alloc::{AllocError, Global};
use std::cmp::Ordering;
use std::marker::Model;
use std::sync::Arc;

/// A search tree of shared nodes, which contracts see as the list of its pairs from left to right.
/// No tree is ever changed: a changed one is made of new nodes from the root to the place of the
/// change, and of the old nodes beside this way, which both trees share.
///
/// That the pairs stand in the order of their keys is no part of what a tree is: the clauses that need
/// it have it as a premise. Nor is it that the sides are of like size, which costs no truth but time.
#[cycle(tree)]
#[derive(Drop)]
pub(crate) struct Tree<V> {
    count: usize,
    root: Link<V>,
}

#[cycle(tree)]
#[derive(Drop)]
enum Link<V> {
    Leaf,
    Fork(Arc<Node<V>, Global>),
}

/// A pair, between the pairs before it and those after it.
#[cycle(tree)]
#[derive(Drop)]
pub(crate) struct Node<V> {
    pub(crate) left: Tree<V>,
    pub(crate) pair: Shared<(Text, V)>,
    pub(crate) right: Tree<V>,
}

impl<V> Model for Tree<V> {
    ghost use Rattle.std.specs.Prelude.{◌≡◌, List, ℕ, length};
    ghost use Rattle.std.specs.Coded.{coded_list, coded_ℕ, coded×};

    ghost Value = { List (List ℕ × V) };

    ghost coded = { coded_list (coded× (coded_list coded_ℕ) V.code) };

    ghost use Rattle.plain_data.specs.Trees.{pairs_of};

    ghost view = { λ t. pairs_of t.root };

    ghost invariant = { λ t. t.count ≡ length (pairs_of t.root) };

    ghost size = { length };

    ghost use Rattle.plain_data.specs.Depths.{depth_le-length-pairs_of};

    ghost size_decreases = { λ t h. depth_le-length-pairs_of t.root };
}

impl<V> Tree<V> {
    /// The empty tree. It takes no memory.
    pub(crate) fn new() -> Tree<V>
        ensures { result ≡ [] }
    {
        Tree {
            count: 0,
            root: Link::Leaf,
        }
    }

    /// How many pairs it has.
    pub(crate) fn len(&self) -> usize
        ensures { result ≡ length self.now }
    {
        self.count
    }

    /// The node at the root.
    pub(crate) fn node(&self) -> Option<&Node<V>>
        ensures { MatchOption result (self.now ≡ []) (λ node. self.now ≡ node.now.left ++ node.now.pair ∷ node.now.right) }
    {
        match &self.root {
            Link::Leaf => None,
            Link::Fork(shared) => {
                let node: &Node<V> = shared;
                Some(node)
            }
        }
    }

    /// How many nodes stand on the longest way down.
    pub(crate) fn depth(&self) -> usize
        ensures most { result ≤ length self.now }
        ensures least { length self.now < 2 ^ result }
    {
        // All pairs can be counted, so that how deep they stand can.
        let _ = self.len();
        match self.node() {
            None => 0,
            Some(node) => node.left.depth().max(node.right.depth()).saturating_add(1),
        }
    }

    /// Another owner of the tree.
    pub(crate) fn share(&self) -> Result<Tree<V>, AllocError>
        ensures { IfOk result (λ made. made ≡ self.now) }
    {
        let root = match &self.root {
            Link::Leaf => Link::Leaf,
            Link::Fork(shared) => Link::Fork(Arc::try_clone(shared)?),
        };
        Ok(Tree {
            count: self.count,
            root,
        })
    }

    /// The value at a key.
    pub(crate) fn get(&self, key: &Text) -> Option<&V>
        ensures { InOrder self.now → option_copied result ≡ lookup key.now self.now }
    {
        match self.node() {
            None => None,
            Some(node) => {
                let pair = node.pair.get();
                match key.cmp(&pair.0) {
                    Ordering::Less => node.left.get(key),
                    Ordering::Equal => Some(&pair.1),
                    Ordering::Greater => node.right.get(key),
                }
            }
        }
    }
}

impl<V: Drop> Tree<V> {
    /// The tree of a pair, what stands before it and what stands after it.
    pub(crate) fn fork(
        alloc: Global,
        left: Tree<V>,
        pair: Shared<(Text, V)>,
        right: Tree<V>,
    ) -> Result<Tree<V>, AllocError>
        ensures { IfOk result (λ made. made ≡ left ++ pair ∷ right) }
    {
        let Some(beside) = left.len().checked_add(right.len()) else {
            return Err(AllocError);
        };
        let Some(count) = beside.checked_add(1) else {
            return Err(AllocError);
        };
        let root = Link::Fork(Arc::new(alloc, Node { left, pair, right })?);
        Ok(Tree { count, root })
    }

    /// The tree with a pair in its place, instead of the one that may stand there.
    pub(crate) fn with(&self, alloc: Global, pair: Shared<(Text, V)>) -> Result<Tree<V>, AllocError>
        ensures { IfOk result (λ made. InOrder self.now → made ≡ with pair.0 pair.1 self.now) }
    {
        match self.node() {
            None => Tree::fork(alloc, Tree::new(), pair, Tree::new()),
            Some(node) => match pair.get().0.cmp(&node.pair.get().0) {
                Ordering::Less => {
                    let left = node.left.with(alloc, pair)?;
                    balance(alloc, left, node.pair.share()?, node.right.share()?)
                }
                Ordering::Equal => Tree::fork(alloc, node.left.share()?, pair, node.right.share()?),
                Ordering::Greater => {
                    let right = node.right.with(alloc, pair)?;
                    balance(alloc, node.left.share()?, node.pair.share()?, right)
                }
            },
        }
    }

    /// The tree without a key.
    pub(crate) fn without(&self, alloc: Global, key: &Text) -> Result<Tree<V>, AllocError>
        ensures { IfOk result (λ made. InOrder self.now → made ≡ without key.now self.now) }
    {
        match self.node() {
            None => Ok(Tree::new()),
            Some(node) => match key.cmp(&node.pair.get().0) {
                Ordering::Less => {
                    let left = node.left.without(alloc, key)?;
                    balance(alloc, left, node.pair.share()?, node.right.share()?)
                }
                Ordering::Equal => joined(alloc, &node.left, &node.right),
                Ordering::Greater => {
                    let right = node.right.without(alloc, key)?;
                    balance(alloc, node.left.share()?, node.pair.share()?, right)
                }
            },
        }
    }

    /// The first pair, and the tree of the others.
    pub(crate) fn split_first(
        &self,
        alloc: Global,
    ) -> Result<Option<(Shared<(Text, V)>, Tree<V>)>, AllocError>
        ensures { IfOk result (λ made. MatchOption made (self.now ≡ []) (λ split. self.now ≡ split.0 ∷ split.1)) }
    {
        match self.node() {
            None => Ok(None),
            Some(node) => match node.left.split_first(alloc)? {
                None => Ok(Some((node.pair.share()?, node.right.share()?))),
                Some((first, left)) => {
                    let others = balance(alloc, left, node.pair.share()?, node.right.share()?)?;
                    Ok(Some((first, others)))
                }
            },
        }
    }
}
