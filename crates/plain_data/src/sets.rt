ghost use Rattle.std.specs.Prelude.{◌≡◌, [], length, IfOk, OnOk, OnErr, is_some, IsTrue, ◌↔◌};
ghost use Rattle.std.specs.Iterator.{at_most};
ghost use Rattle.std.specs.Ordering.{nat_cmp};
ghost use Rattle.std.specs.Cmp.Lexicographic.{slice_cmp};
ghost use Rattle.std.specs.List.Sorted.{IsStrictlySortedBy};
ghost use Rattle.std.specs.Map.{keys_of};
ghost use Rattle.std.specs.Map.Iter.{TakesFirst};
ghost use Rattle.plain_data.specs.Agreements.{with_all};
ghost use Rattle.plain_data.specs.Pairs.{lookup, with, without, a_name};

use crate::maps::Map;
use crate::memory::OutOfMemory;
use crate::pairs::Pairs;
use crate::texts::Text;
use std::alloc::{AllocError, Global};
use std::marker::Model;

/// A set of names: a map whose values are empty, and seen as such by contracts, so that all that is
/// said of maps, as their diffs, is said of sets.
#[derive(Debug, Drop)]
pub struct NameSet {
    names: Map<()>,
}

impl Model for NameSet {
    ghost use Rattle.std.specs.Prelude.{List, ℕ};

    ghost Value = { List (List ℕ × Unit {0}) };

    ghost view = { λ s. s.names };
}

impl NameSet {
    /// The empty set. It takes no memory.
    pub fn new(alloc: Global) -> NameSet
        ensures { result ≡ [] }
    {
        NameSet {
            names: Map::new(alloc),
        }
    }

    /// The set that a map has for its keys.
    pub fn from_map(names: Map<()>) -> NameSet
        ensures { result ≡ names }
    {
        NameSet { names }
    }

    /// The set as a map.
    pub fn as_map(&self) -> &Map<()>
        ensures { result.now ≡ self.now }
    {
        &self.names
    }

    pub fn contains(&self, name: &Text) -> bool
        ensures { result ≡ is_some (lookup name.now self.now) }
    {
        self.names.contains_key(name)
    }

    /// How many names it has.
    pub fn len(&self) -> usize
        ensures len { result ≡ length self.now }

        // The names stand in byte order, each once.
        ensures ordered { IsStrictlySortedBy (slice_cmp nat_cmp) (keys_of self.now) }
    {
        self.names.len()
    }

    pub fn is_empty(&self) -> bool
        ensures { IsTrue result ↔ (self.now ≡ []) }
    {
        self.names.is_empty()
    }

    /// Adds a name. Want of memory leaves the set as it was, and every copy stays as it was.
    pub fn insert(&mut self, name: Text) -> Result<(), OutOfMemory>
        ensures ok { OnOk result (self.new ≡ with name tt self.old) }
        ensures err { OnErr result (self.new ≡ self.old) }
    {
        self.names.set(name, ())
    }

    /// Takes a name out, where it is there. Want of memory leaves the set as it was, and every copy
    /// stays as it was.
    pub fn remove(&mut self, name: &Text) -> Result<(), OutOfMemory>
        ensures ok { OnOk result (self.new ≡ without name.now self.old) }
        ensures err { OnErr result (self.new ≡ self.old) }
    {
        self.names.remove(name)
    }

    /// Adds the names of another set. Want of memory leaves the set as it was, and every copy stays as it was.
    pub fn include(&mut self, other: &NameSet) -> Result<(), OutOfMemory>
        ensures ok { OnOk result (self.new ≡ with_all other.now self.old) }
        ensures err { OnErr result (self.new ≡ self.old) }
    {
        let mut names = self.names.copy()?;
        for name in other.iter() {
            names.set(name.copy()?, ())?;
        }
        self.names = names;
        Ok(())
    }

    /// The names in byte order.
    pub fn iter(&self) -> Names<'_>
        ensures { result ≡ self.now }
    {
        Names {
            left: self.names.iter(),
        }
    }

    /// An equal set, which shares all that this one has.
    pub fn copy(&self) -> Result<NameSet, OutOfMemory>
        ensures { IfOk result (λ made. made ≡ self.now) }
    {
        let names = self.names.copy()?;
        Ok(NameSet { names })
    }
}

impl Clone for NameSet {
    ghost is_clone = { λ a b. b ≡ a };

    fn clone(&self) -> Result<NameSet, AllocError> {
        let names = self.names.clone()?;
        Ok(NameSet { names })
    }
}

impl PartialEq for NameSet {
    ghost use Rattle.plain_data.specs.Pairs.{pairs_eq, pairs_per, unit_eq, unit_per};

    ghost eq = { pairs_eq unit_eq };

    ghost laws = { pairs_per unit_per };

    fn eq(&self, other: &NameSet) -> bool {
        self.names == other.names
    }
}

impl Eq for NameSet {
    ghost use Rattle.plain_data.specs.Pairs.{pairs_equiv, unit_equiv};

    ghost laws = { pairs_equiv unit_equiv };
}

/// What is left of a walk over a set: its names, in byte order. It takes no memory.
#[derive(Drop)]
pub struct Names<'a> {
    left: Pairs<'a, ()>,
}

impl<'a> Model for Names<'a> {
    ghost use Rattle.std.specs.Prelude.{List, ℕ};

    ghost Value = { List (List ℕ × Unit {0}) };

    ghost view = { λ n. n.left };
}

impl<'a> Iterator for Names<'a> {
    type Item = &'a Text;

    ghost next_gives = { TakesFirst a_name };

    ghost remaining = { λ s. at_most (length s) };

    fn next(&mut self) -> Option<&'a Text> {
        match self.left.next() {
            None => None,
            Some((name, _)) => Some(name),
        }
    }
}
