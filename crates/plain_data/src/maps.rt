ghost use Rattle.std.specs.Prelude.{◌≡◌, ◌≤◌, ◌<◌, ◌^◌, List, [], ℕ, ◌==◌, ◌&&◌, IfOk, OnOk, OnErr, length, is_some, IsTrue, ◌↔◌};
ghost use Rattle.std.specs.Option.{option_copied};
ghost use Rattle.std.specs.Ordering.{nat_cmp};
ghost use Rattle.std.specs.List.Sorted.{IsStrictlySortedBy};
ghost use Rattle.std.specs.Map.{keys_of};
ghost use Rattle.std.specs.Cmp.Lexicographic.{pointwise, slice_cmp};
ghost use Rattle.plain_data.specs.Pairs.{lookup, with, without, pairs_eq, pairs_per, pairs_equiv};

use crate::memory::OutOfMemory;
use crate::pairs::Pairs;
use crate::shares::Shared;
use crate::texts::Text;
use crate::trees::Tree;
use std::alloc::{AllocError, Global};
use std::fmt;
use std::marker::Model;

/// A map under text keys, which contracts see as the list of its pairs in byte order of the keys.
/// Its copies share what they have in common: to copy a map costs the same whatever its size, and a
/// change of one copy leaves every other as it was.
#[derive(Drop)]
pub struct Map<V> {
    alloc: Global,
    tree: Tree<V>,
}

impl<V> Model for Map<V> {
    ghost use Rattle.std.specs.Prelude.{List, ℕ};
    ghost use Rattle.std.specs.Coded.{coded_list, coded_ℕ, coded×};
    ghost use Rattle.plain_data.specs.Pairs.{InOrder};

    ghost Value = { List (List ℕ × V) };

    ghost coded = { coded_list (coded× (coded_list coded_ℕ) V.code) };

    ghost view = { λ m. m.tree };

    ghost invariant = { λ m. InOrder m.tree };
}

impl<V> Map<V> {
    /// The empty map. It takes no memory.
    #[tactic(auto, using(crate::proofs::At::in_order_empty))]
    pub fn new(alloc: Global) -> Map<V>
        ensures { result ≡ [] }
    {
        Map {
            alloc,
            tree: Tree::new(),
        }
    }

    /// The value at a key.
    pub fn get(&self, key: &Text) -> Option<&V>
        ensures { option_copied result ≡ lookup key.now self.now }
    {
        self.tree.get(key)
    }

    pub fn contains_key(&self, key: &Text) -> bool
        ensures { result ≡ is_some (lookup key.now self.now) }
    {
        self.get(key).is_some()
    }

    /// How many pairs it has.
    pub fn len(&self) -> usize
        ensures len { result ≡ length self.now }

        // The keys stand in byte order, each once.
        ensures ordered { IsStrictlySortedBy (slice_cmp nat_cmp) (keys_of self.now) }
    {
        self.tree.len()
    }

    pub fn is_empty(&self) -> bool
        ensures { IsTrue result ↔ (self.now ≡ []) }
    {
        self.len() == 0
    }

    /// The pairs in byte order of their keys.
    pub fn iter(&self) -> Pairs<'_, V>
        ensures { result ≡ self.now }
    {
        Pairs::over(&self.tree)
    }

    /// How many pairs stand on the longest way down: so many a look-up and a change meet at most. It costs a walk
    /// over all pairs, for tests, by which alone it is shown to stay near the least that it can be.
    pub fn depth(&self) -> usize
        ensures most { result ≤ length self.now }
        ensures least { length self.now < 2 ^ result }
    {
        self.tree.depth()
    }

    /// An equal map, which shares all that this one has. It asks nothing of the values, and its cost
    /// doesn't grow with the map.
    pub fn copy(&self) -> Result<Map<V>, OutOfMemory>
        ensures { IfOk result (λ made. made ≡ self.now) }
    {
        let tree = self.tree.share()?;
        Ok(Map {
            alloc: self.alloc,
            tree,
        })
    }
}

impl<V: Drop> Map<V> {
    /// Puts a value at a key, in place of the one that may stand there. Every copy stays as it was.
    /// Want of memory leaves this map as it was too.
    pub fn set(&mut self, key: Text, value: V) -> Result<(), OutOfMemory>
        ensures ok { OnOk result (self.new ≡ with key value self.old) }
        ensures err { OnErr result (self.new ≡ self.old) }
    {
        let pair = Shared::new(self.alloc, (key, value))?;
        self.tree = self.tree.with(self.alloc, pair)?;
        Ok(())
    }

    /// Takes a key out, where it is there. Every copy stays as it was. Want of memory leaves this map
    /// as it was too.
    pub fn remove(&mut self, key: &Text) -> Result<(), OutOfMemory>
        ensures ok { OnOk result (self.new ≡ without key.now self.old) }
        ensures err { OnErr result (self.new ≡ self.old) }
    {
        self.tree = self.tree.without(self.alloc, key)?;
        Ok(())
    }
}

impl<V: Drop> Clone for Map<V> {
    ghost is_clone = { λ a b. b ≡ a };

    fn clone(&self) -> Result<Map<V>, AllocError> {
        let tree = self.tree.share()?;
        Ok(Map {
            alloc: self.alloc,
            tree,
        })
    }
}

impl<V: PartialEq> PartialEq for Map<V> {
    ghost eq = { pairs_eq V.eq };

    ghost laws = { pairs_per V.laws };

    fn eq(&self, other: &Map<V>) -> bool {
        let mut others = other.iter();
        for (key, value) in self.iter() {
            match others.next() {
                None => return false,
                Some((name, thing)) => {
                    if key != name || value != thing {
                        return false;
                    }
                }
            }
        }
        others.next().is_none()
    }
}

impl<V: Eq> Eq for Map<V> {
    ghost laws = { pairs_equiv V.Eq.laws };
}

impl<V: fmt::Debug> fmt::Debug for Map<V> {
    fn fmt<W: fmt::Write>(&self, f: &mut fmt::Formatter<W>) -> fmt::Result {
        write!(f, "{{")?;
        for (key, value) in self.iter() {
            write!(f, " {key:?}: {value:?},")?;
        }
        write!(f, " }}")
    }
}
