ghost use Rattle.std.specs.Prelude.{◌≡◌, [], length, IfOk, OnOk, OnErr, is_some, IsTrue, ◌↔◌};
ghost use Rattle.std.specs.Option.{option_copied};
ghost use Rattle.std.specs.Ordering.{nat_cmp};
ghost use Rattle.std.specs.List.Sorted.{IsStrictlySortedBy};
ghost use Rattle.std.specs.Map.{keys_of};
ghost use Rattle.std.specs.Cmp.Lexicographic.{slice_cmp};
ghost use Rattle.plain_data.specs.Agreements.{AgreeOutside};
ghost use Rattle.plain_data.specs.Pairs.{lookup, with, without, pairs_eq, pairs_per, pairs_equiv, pairs_decides};
ghost use Rattle.meta_state.specs.Aliases.{has_alias, names_with};
ghost use Rattle.meta_state.specs.Exact.{index_eq, index_equiv, index_per, index_decides};
ghost use Rattle.meta_state.specs.Tables.{AgreeBut, aliases_at, has_names, all_entered, all_struck, entered, holders, relisted, retold, struck};

use crate::index_metadata::IndexMetadata;
use plain_data::{Exact, Items, Map, NameSet, OutOfMemory, Pairs, Text, is_same_among};
use std::alloc::{AllocError, Global};
use std::fmt;
use std::marker::Model;

/// The indices of a cluster by name, which contracts see as the list of their pairs in byte order of the names.
/// Beside them stands a table of their aliases, so that to look an alias up doesn't cost a walk over the indices.
/// Copies share what they have in common, as those of a `Map`.
#[derive(Drop)]
pub struct IndexTable {
    alloc: Global,
    by_name: Map<IndexMetadata>,

    // For each alias the names of the indices that have it.
    by_alias: Map<NameSet>,
}

impl Model for IndexTable {
    ghost use Rattle.std.specs.Prelude.{List, ℕ};
    ghost use Rattle.meta_state.specs.declared.index_metadata.IndexMetadata.{IndexMetadata};
    ghost use Rattle.meta_state.specs.Tables.{IsTable};

    ghost Value = { List (List ℕ × IndexMetadata) };

    ghost view = { λ i. i.by_name };

    ghost invariant = { λ i. IsTable i.by_alias i.by_name };
}

impl IndexTable {
    /// No indices. It takes no memory.
    #[tactic(auto, using(crate::proofs::Tables::table_of_none))]
    pub fn new(alloc: Global) -> IndexTable
        ensures { result ≡ [] }
    {
        IndexTable {
            alloc,
            by_name: Map::new(alloc),
            by_alias: Map::new(alloc),
        }
    }

    /// The index of a name.
    pub fn get(&self, name: &Text) -> Option<&IndexMetadata>
        ensures { option_copied result ≡ lookup name.now self.now }
    {
        self.by_name.get(name)
    }

    pub fn contains_key(&self, name: &Text) -> bool
        ensures { result ≡ is_some (lookup name.now self.now) }
    {
        self.by_name.contains_key(name)
    }

    /// How many indices there are.
    pub fn len(&self) -> usize
        ensures len { result ≡ length self.now }

        // The names stand in byte order, each once.
        ensures ordered { IsStrictlySortedBy (slice_cmp nat_cmp) (keys_of self.now) }
    {
        self.by_name.len()
    }

    pub fn is_empty(&self) -> bool
        ensures { IsTrue result ↔ (self.now ≡ []) }
    {
        self.by_name.is_empty()
    }

    /// The indices in byte order of their names.
    pub fn iter(&self) -> Pairs<'_, IndexMetadata>
        ensures { result ≡ self.now }
    {
        self.by_name.iter()
    }

    /// The indices as a map.
    pub fn by_name(&self) -> &Map<IndexMetadata>
        ensures { result.now ≡ self.now }
    {
        &self.by_name
    }

    /// Whether two tables that agree outside of some names are equal, which costs a look-up in each at each of these
    /// names.
    pub fn is_same_among(&self, other: &IndexTable, names: &NameSet) -> bool
        requires { AgreeOutside names.now self.now other.now }
        ensures { result ≡ pairs_eq index_eq self.now other.now }
    {
        is_same_among(&self.by_name, &other.by_name, names)
    }

    /// Equal indices, which share all that these have. Its cost doesn't grow with them.
    pub fn copy(&self) -> Result<IndexTable, OutOfMemory>
        ensures { IfOk result (λ made. made ≡ self.now) }
    {
        Ok(IndexTable {
            alloc: self.alloc,
            by_name: self.by_name.copy()?,
            by_alias: self.by_alias.copy()?,
        })
    }

    /// Whether some index has an alias. Its cost doesn't grow with the indices that have it.
    #[tactic(auto, using(crate::proofs::Tables::alias_from_table))]
    pub fn has_alias(&self, alias: &Text) -> bool
        ensures { result ≡ has_alias alias.now self.now }
    {
        is_any(self.by_alias.get(alias))
    }

    /// The names of the indices that have an alias, in byte order. Its cost grows with these names alone.
    #[tactic(auto, using(crate::proofs::Tables::names_from_table))]
    pub fn names_with(&self, alloc: Global, alias: &Text) -> Result<Items<Text>, OutOfMemory>
        ensures { IfOk result (λ made. made ≡ names_with alias.now self.now) }
    {
        match self.by_alias.get(alias) {
            None => Ok(Items::new(alloc)),
            Some(names) => names_of(alloc, names),
        }
    }

    /// Puts an index at a name, in place of the one that may stand there. Its cost grows with the aliases of both.
    /// Every copy stays as it was, and want of memory leaves these indices as they were too.
    pub fn set(&mut self, name: Text, index: IndexMetadata) -> Result<(), OutOfMemory>
        ensures ok { OnOk result (self.new ≡ with name index self.old) }
        ensures err { OnErr result (self.new ≡ self.old) }
    {
        let mut table = table_without(self.alloc, &self.by_alias, &self.by_name, &name)?;
        enter_all(self.alloc, &mut table, &name, &index.aliases)?;
        self.by_name.set(name, index)?;
        self.by_alias = table;
        Ok(())
    }

    /// The same where the index that stands there has the same aliases, which costs no walk over them.
    pub fn set_keeping_aliases(
        &mut self,
        name: Text,
        index: IndexMetadata,
    ) -> Result<(), OutOfMemory>
        requires { index.aliases ≡ aliases_at name self.old }
        ensures ok { OnOk result (self.new ≡ with name index self.old) }
        ensures err { OnErr result (self.new ≡ self.old) }
    {
        self.by_name.set(name, index)?;
        Ok(())
    }

    /// The same where the aliases of the index that stands there differ at most in one alias, which alone is looked
    /// up.
    pub fn set_changing_alias(
        &mut self,
        name: Text,
        index: IndexMetadata,
        alias: &Text,
    ) -> Result<(), OutOfMemory>
        requires { AgreeBut alias.now index.aliases (aliases_at name self.old) }
        ensures ok { OnOk result (self.new ≡ with name index self.old) }
        ensures err { OnErr result (self.new ≡ self.old) }
    {
        let mut table = self.by_alias.copy()?;
        retell(self.alloc, &mut table, &name, &index.aliases, alias)?;
        self.by_name.set(name, index)?;
        self.by_alias = table;
        Ok(())
    }

    /// Takes the index of a name out, where it is there, and its aliases with it. Its cost grows with them. Every
    /// copy stays as it was, and want of memory leaves these indices as they were too.
    pub fn remove(&mut self, name: &Text) -> Result<(), OutOfMemory>
        ensures ok { OnOk result (self.new ≡ without name.now self.old) }
        ensures err { OnErr result (self.new ≡ self.old) }
    {
        let table = table_without(self.alloc, &self.by_alias, &self.by_name, name)?;
        self.by_name.remove(name)?;
        self.by_alias = table;
        Ok(())
    }
}

impl Clone for IndexTable {
    ghost is_clone = { λ a b. b ≡ a };

    fn clone(&self) -> Result<IndexTable, AllocError> {
        Ok(IndexTable {
            alloc: self.alloc,
            by_name: self.by_name.clone()?,
            by_alias: self.by_alias.clone()?,
        })
    }
}

impl PartialEq for IndexTable {
    ghost eq = { pairs_eq index_eq };

    ghost laws = { pairs_per index_per };

    fn eq(&self, other: &IndexTable) -> bool {
        self.by_name == other.by_name
    }
}

impl Eq for IndexTable {
    ghost laws = { pairs_equiv index_equiv };
}

impl Exact for IndexTable {
    ghost exact = { pairs_decides index_decides };
}

impl fmt::Debug for IndexTable {
    fn fmt<W: fmt::Write>(&self, f: &mut fmt::Formatter<W>) -> fmt::Result {
        let indices = &self.by_name;
        write!(f, "{indices:?}")
    }
}

fn is_any(names: Option<&NameSet>) -> bool
    ensures { result ≡ has_names (option_copied names.entry) }
{
    match names {
        None => false,
        Some(names) => !names.is_empty(),
    }
}

fn names_of(alloc: Global, names: &NameSet) -> Result<Items<Text>, OutOfMemory>
    ensures { IfOk result (λ made. made ≡ keys_of names.now) }
{
    let mut made = Items::new(alloc);
    for name in names.iter() {
        made.push(name.copy()?)?;
    }
    Ok(made)
}

fn holders_of(alloc: Global, table: &Map<NameSet>, alias: &Text) -> Result<NameSet, OutOfMemory>
    ensures { IfOk result (λ made. made ≡ holders alias.now table.now) }
{
    match table.get(alias) {
        None => Ok(NameSet::new(alloc)),
        Some(names) => names.copy(),
    }
}

// Enters an index under an alias.
fn enter(
    alloc: Global,
    table: &mut Map<NameSet>,
    name: &Text,
    alias: &Text,
) -> Result<(), OutOfMemory>
    ensures { OnOk result (table.new ≡ entered name.now alias.now table.old) }
{
    let mut names = holders_of(alloc, table, alias)?;
    names.insert(name.copy()?)?;
    table.set(alias.copy()?, names)
}

// Strikes an index under an alias, and the alias where no other index has it.
fn strike(
    alloc: Global,
    table: &mut Map<NameSet>,
    name: &Text,
    alias: &Text,
) -> Result<(), OutOfMemory>
    ensures { OnOk result (table.new ≡ struck name.now alias.now table.old) }
{
    let mut names = holders_of(alloc, table, alias)?;
    names.remove(name)?;
    relist(table, alias, names)
}

fn relist(table: &mut Map<NameSet>, alias: &Text, names: NameSet) -> Result<(), OutOfMemory>
    ensures { OnOk result (table.new ≡ relisted alias.now names table.old) }
{
    if names.is_empty() {
        table.remove(alias)
    } else {
        table.set(alias.copy()?, names)
    }
}

// Enters an index under one alias or strikes it there, as the index's aliases say.
fn retell(
    alloc: Global,
    table: &mut Map<NameSet>,
    name: &Text,
    aliases: &NameSet,
    alias: &Text,
) -> Result<(), OutOfMemory>
    ensures { OnOk result (table.new ≡ retold name.now alias.now aliases.now table.old) }
{
    if aliases.contains(alias) {
        enter(alloc, table, name, alias)
    } else {
        strike(alloc, table, name, alias)
    }
}

fn enter_all(
    alloc: Global,
    table: &mut Map<NameSet>,
    name: &Text,
    aliases: &NameSet,
) -> Result<(), OutOfMemory>
    ensures { OnOk result (table.new ≡ all_entered name.now aliases.now table.old) }
{
    for alias in aliases.iter() {
        enter(alloc, table, name, alias)?;
    }
    Ok(())
}

fn strike_all(
    alloc: Global,
    table: &mut Map<NameSet>,
    name: &Text,
    aliases: &NameSet,
) -> Result<(), OutOfMemory>
    ensures { OnOk result (table.new ≡ all_struck name.now aliases.now table.old) }
{
    for alias in aliases.iter() {
        strike(alloc, table, name, alias)?;
    }
    Ok(())
}

// The table without the index of a name.
fn table_without(
    alloc: Global,
    table: &Map<NameSet>,
    indices: &Map<IndexMetadata>,
    name: &Text,
) -> Result<Map<NameSet>, OutOfMemory>
    ensures { IfOk result (λ made. made ≡ all_struck name.now (aliases_at name.now indices.now) table.now) }
{
    let mut made = table.copy()?;
    if let Some(index) = indices.get(name) {
        strike_all(alloc, &mut made, name, &index.aliases)?;
    }
    Ok(made)
}
