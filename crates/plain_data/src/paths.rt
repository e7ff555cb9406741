ghost use Rattle.std.specs.Prelude.{◌≡◌, [], ◌∷◌, ◌++◌, None, drop, MatchOption};
ghost use Rattle.plain_data.specs.Walks.{waiting, ahead, AreFirst};

use crate::trees::{Node, Tree};

/// The nodes whose left sides a walk has gone down, the nearest first: it comes back to each, for its
/// pair and its right side. There is room for four; the farthest are forgotten, and found again from
/// the root once the near ones are used up, which is after sixteen pairs or more.
#[derive(Drop)]
pub(crate) struct Path<'a, V> {
    first: Option<&'a Node<V>>,
    second: Option<&'a Node<V>>,
    third: Option<&'a Node<V>>,
    fourth: Option<&'a Node<V>>,
}

impl<'a, V> Path<'a, V> {
    pub(crate) fn new() -> Path<'a, V>
        ensures { waiting result ≡ [] }
    {
        Path {
            first: None,
            second: None,
            third: None,
            fourth: None,
        }
    }

    /// The node of the pair that has `rank` others before it in a tree, where this path holds the first
    /// of the pairs from there on, and then holds the first of those after it but for the node's right
    /// side.
    pub(crate) fn step(&mut self, tree: &'a Tree<V>, rank: usize) -> Option<&'a Node<V>>
        requires { AreFirst (waiting self.old) (drop rank tree.now) }
        ensures { MatchOption result (drop rank tree.now ≡ []) (λ node. AreFirst (ahead node.now self.new) (drop rank tree.now)) }
    {
        match self.pop() {
            None => {
                *self = Path::new();
                self.seek(tree, rank)
            }
            near => near,
        }
    }

    /// Goes down to the first pair of a tree that stands before all that the path comes back to.
    pub(crate) fn down(&mut self, tree: &'a Tree<V>)
        ensures { AreFirst (waiting self.new) (tree.now ++ waiting self.old) }
    {
        match tree.node() {
            None => {}
            Some(node) => {
                self.push(node);
                self.down(&node.left);
            }
        }
    }

    /// Goes down a tree to the pair that has `rank` others before it.
    fn seek(&mut self, tree: &'a Tree<V>, rank: usize) -> Option<&'a Node<V>>
        ensures { MatchOption result (drop rank tree.now ≡ []) (λ node. AreFirst (ahead node.now self.new) (drop rank tree.now ++ waiting self.old)) }
    {
        match tree.node() {
            None => None,
            Some(node) => {
                let before = node.left.len();
                if rank < before {
                    self.push(node);
                    self.seek(&node.left, rank)
                } else if rank == before {
                    Some(node)
                } else {
                    self.seek(&node.right, rank - before - 1)
                }
            }
        }
    }

    /// Adds a nearer node.
    fn push(&mut self, node: &'a Node<V>)
        ensures { AreFirst (waiting self.new) (ahead node.now self.old) }
    {
        self.fourth = self.third;
        self.third = self.second;
        self.second = self.first;
        self.first = Some(node);
    }

    /// Takes the nearest node off.
    fn pop(&mut self) -> Option<&'a Node<V>>
        ensures { MatchOption result (self.old.first ≡ None) (λ node. waiting self.old ≡ ahead node.now self.new) }
    {
        let near = self.first;
        self.first = self.second;
        self.second = self.third;
        self.third = self.fourth;
        self.fourth = None;
        near
    }
}
