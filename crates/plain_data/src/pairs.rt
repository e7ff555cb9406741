ghost use Rattle.std.specs.Prelude.{◌≡◌, length};
ghost use Rattle.std.specs.Iterator.{at_most};
ghost use Rattle.std.specs.Map.Iter.{TakesFirst, deref_pair};

use crate::paths::Path;
use crate::texts::Text;
use crate::trees::Tree;
use std::marker::Model;

/// What is left of a walk over a map: its pairs, in byte order of their keys. It takes no memory.
#[derive(Drop)]
pub struct Pairs<'a, V> {
    tree: &'a Tree<V>,
    next: usize,
    path: Path<'a, V>,
}

impl<'a, V> Model for Pairs<'a, V> {
    ghost use Rattle.std.specs.Prelude.{List, ℕ, drop};
    ghost use Rattle.std.specs.Coded.{coded_list, coded_ℕ, coded×};
    ghost use Rattle.plain_data.specs.Walks.{waiting, AreFirst};

    ghost Value = { List (List ℕ × V) };

    ghost coded = { coded_list (coded× (coded_list coded_ℕ) V.code) };

    ghost view = { λ p. drop p.next p.tree.now };

    ghost invariant = { λ p. AreFirst (waiting p.path) (drop p.next p.tree.now) };
}

impl<'a, V> Pairs<'a, V> {
    pub(crate) fn over(tree: &'a Tree<V>) -> Pairs<'a, V>
        ensures { result ≡ tree.now }
    {
        Pairs {
            tree,
            next: 0,
            path: Path::new(),
        }
    }
}

impl<'a, V> Iterator for Pairs<'a, V> {
    type Item = (&'a Text, &'a V);

    ghost next_gives = { TakesFirst deref_pair };

    ghost remaining = { λ s. at_most (length s) };

    fn next(&mut self) -> Option<(&'a Text, &'a V)> {
        if self.next >= self.tree.len() {
            return None;
        }
        match self.path.step(self.tree, self.next) {
            None => None,
            Some(node) => {
                self.path.down(&node.right);
                self.next += 1;
                let pair = node.pair.get();
                Some((&pair.0, &pair.1))
            }
        }
    }
}
