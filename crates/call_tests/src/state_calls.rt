use crate::open_index;
use meta_state::{
    ClusterState, Found, IndexMetadata, IndexTable, Look, NodeInfo, Pred, check_index_name, lookup,
    to_json,
};
use plain_data::{Boxed, Items, NameSet, OutOfMemory, Text};
use std::alloc::Global;
use std::test::Fail;

// One letter so many times.
fn letters(alloc: Global, letter: &str, count: usize) -> Result<String, Fail> {
    let mut name = String::new(alloc);
    for _ in 0..count {
        name.push_str(letter)?;
    }
    Ok(name)
}

fn rule_of(name: &str) -> u8 {
    match check_index_name(name) {
        Ok(()) => 0,
        Err(invalid) => invalid.rule,
    }
}

#[test]
fn a_name_is_judged_by_the_first_rule_that_it_breaks(rt: HostRuntime) -> Result<(), Fail> {
    // a name, and the rule that it breaks; 0 is none
    let table: [(&str, u8); 38] = [
        ("logs-1", 0),
        ("a", 0),
        ("0", 0),
        ("...", 0),
        (".a", 0),
        ("a_-+", 0),
        ("!@[~", 0),
        ("", 1),
        (".", 3),
        ("..", 3),
        ("_a", 4),
        ("-a", 4),
        ("+a", 4),
        ("_", 4),
        ("a\\b", 5),
        ("a/b", 5),
        ("a*", 5),
        ("a?", 5),
        ("a\"b", 5),
        ("<a", 5),
        (">a", 5),
        ("a|b", 5),
        ("a,b", 5),
        ("#a", 5),
        ("a:b", 5),
        ("a b", 5),
        ("aA", 6),
        ("Z", 6),
        ("é", 7),
        ("a\tb", 7),
        ("a\u{7f}", 7),
        ("_*", 4),
        ("-A", 4),
        ("A*", 5),
        ("é*", 5),
        ("éA", 6),
        ("A\n", 6),
        ("._", 0),
    ];
    for (name, rule) in table {
        assert!(rt; rule_of(name) == rule, "at {name}");
    }
    Ok(())
}

#[test]
fn a_name_is_judged_by_its_length_in_bytes(rt: HostRuntime) -> Result<(), Fail> {
    // a letter, how often it stands, and the rule
    let table: [(&str, usize, u8); 4] = [
        ("a", 255, 0),
        ("a", 256, 2),
        ("_", 256, 2),
        ("é", 127, 7),
    ];
    for (letter, count, rule) in table {
        let name = letters(rt.alloc(), letter, count)?;
        assert!(rt; rule_of(name.as_str()) == rule, "at {count} times {letter}");
    }
    Ok(())
}

pub(crate) fn put_node(
    alloc: Global,
    state: &mut ClusterState,
    name: &str,
    eligible: bool,
) -> Result<(), OutOfMemory> {
    let name = Text::from_str(alloc, name)?;
    let node = NodeInfo {
        name: name.copy()?,
        eligible,
    };
    state.nodes.set(name, node)
}

fn put_setting(
    alloc: Global,
    state: &mut ClusterState,
    key: &str,
    value: &str,
) -> Result<(), OutOfMemory> {
    let key = Text::from_str(alloc, key)?;
    state
        .metadata
        .settings
        .set(key, Text::from_str(alloc, value)?)
}

fn set_of(alloc: Global, names: &[&str]) -> Result<NameSet, OutOfMemory> {
    let mut made = NameSet::new(alloc);
    for name in names {
        made.insert(Text::from_str(alloc, name)?)?;
    }
    Ok(made)
}

// An index as it is created first, but for its aliases.
pub(crate) fn index_with(
    alloc: Global,
    id: u64,
    aliases: &[&str],
) -> Result<IndexMetadata, OutOfMemory> {
    Ok(open_index(id, set_of(alloc, aliases)?))
}

// An index whose numbers all differ, with two aliases.
fn other_index(alloc: Global) -> Result<IndexMetadata, OutOfMemory> {
    Ok(IndexMetadata {
        id: 3,
        version: 4,
        settings_version: 5,
        aliases_version: 6,
        opened: false,
        shards: 7,
        replicas: 0,
        aliases: set_of(alloc, &["b", "a"])?,
    })
}

pub(crate) fn put_index(
    alloc: Global,
    state: &mut ClusterState,
    name: &str,
    index: IndexMetadata,
) -> Result<(), OutOfMemory> {
    state
        .metadata
        .indices
        .set(Text::from_str(alloc, name)?, index)
}

fn nodes_of(alloc: Global, names: &[(&str, bool)]) -> Result<Vec<NodeInfo>, OutOfMemory> {
    let mut made = Vec::new(alloc);
    for (name, eligible) in names {
        let name = Text::from_str(alloc, name)?;
        made.push(NodeInfo {
            name,
            eligible: *eligible,
        })?;
    }
    Ok(made)
}

// The first state of the cluster "demo" with these nodes.
pub(crate) fn first_of(alloc: Global, names: &[(&str, bool)]) -> Result<ClusterState, OutOfMemory> {
    let nodes = nodes_of(alloc, names)?;
    ClusterState::first(alloc, &Text::from_str(alloc, "demo")?, &nodes)
}

// Numbers that all differ, and two of each kind.
fn fill(alloc: Global, state: &mut ClusterState) -> Result<(), OutOfMemory> {
    state.id = 11;
    state.term = 12;
    state.version = 18446744073709551615;
    state.metadata.version = 13;
    state.metadata.created = 14;
    put_index(alloc, state, "logs-1", index_with(alloc, 1, &[])?)?;
    put_index(alloc, state, "logs-0", other_index(alloc)?)?;
    put_setting(alloc, state, "k2", "é")?;
    put_setting(alloc, state, "k1", "a \"b\" \\ \n")?;
    put_node(alloc, state, "m", false)
}

fn full(alloc: Global) -> Result<ClusterState, OutOfMemory> {
    let mut state = first_of(alloc, &[("n0", true)])?;
    fill(alloc, &mut state)?;
    Ok(state)
}

const ZERO: &str =
    r#"{"cluster":"demo","id":0,"master":"","metadata":{"created":0,"indices":{},"settings":{},"version":0},"nodes":{},"term":0,"version":0}"#;

const FIRST: &str =
    r#"{"cluster":"demo","id":1,"master":"n0","metadata":{"created":0,"indices":{},"settings":{},"version":1},"nodes":{"n0":{"eligible":true}},"term":1,"version":1}"#;

// Of two nodes of one name the later stands.
const THREE: &str =
    r#"{"cluster":"demo","id":1,"master":"n0","metadata":{"created":0,"indices":{},"settings":{},"version":1},"nodes":{"n0":{"eligible":false},"n1":{"eligible":true}},"term":1,"version":1}"#;

const FULL: &str =
    r#"{"cluster":"demo","id":11,"master":"n0","metadata":{"created":14,"indices":{"logs-0":{"aliases":["a","b"],"aliases_version":6,"id":3,"open":false,"replicas":0,"settings_version":5,"shards":7,"version":4},"logs-1":{"aliases":[],"aliases_version":1,"id":1,"open":true,"replicas":1,"settings_version":1,"shards":1,"version":1}},"settings":{"k1":"a \"b\" \\ \n","k2":"é"},"version":13},"nodes":{"m":{"eligible":false},"n0":{"eligible":true}},"term":12,"version":18446744073709551615}"#;

fn spelled(alloc: Global, state: ClusterState) -> Result<Text, OutOfMemory> {
    to_json(alloc, &state)
}

#[test]
fn a_state_is_spelled_with_its_members_in_byte_order(rt: HostRuntime) -> Result<(), Fail> {
    let alloc = rt.alloc();
    let zero = ClusterState::zero(alloc, &Text::from_str(alloc, "demo")?)?;
    assert_eq!(rt; spelled(alloc, zero)?.as_str(), ZERO);
    let first = first_of(alloc, &[("n0", true)])?;
    assert_eq!(rt; spelled(alloc, first)?.as_str(), FIRST);
    let three = first_of(alloc, &[("n0", true), ("n1", true), ("n0", false)])?;
    assert_eq!(rt; spelled(alloc, three)?.as_str(), THREE);
    assert_eq!(rt; spelled(alloc, full(alloc)?)?.as_str(), FULL);
    Ok(())
}

// What a row of a table asks for.
#[derive(Clone, Copy)]
enum Of {
    Index,
    Alias,
    Node,
    Version,
    Setting,
    All,
    Any,
}

fn pred_of(
    alloc: Global,
    of: Of,
    name: &str,
    value: &str,
    version: u64,
) -> Result<Pred, OutOfMemory> {
    let name = Text::from_str(alloc, name)?;
    match of {
        Of::Index => Ok(Pred::Index(name)),
        Of::Alias => Ok(Pred::Alias(name)),
        Of::Node => Ok(Pred::Node(name)),
        Of::Version => Ok(Pred::Version(version)),
        Of::Setting => Ok(Pred::Setting {
            key: name,
            value: Text::from_str(alloc, value)?,
        }),
        Of::All => Ok(Pred::All(Items::new(alloc))),
        Of::Any => Ok(Pred::Any(Items::new(alloc))),
    }
}

fn not(alloc: Global, pred: Pred) -> Result<Pred, OutOfMemory> {
    Ok(Pred::Not(Boxed::new(alloc, pred)?))
}

#[test]
fn a_predicate_is_met_by_the_state_that_it_describes(rt: HostRuntime) -> Result<(), Fail> {
    let alloc = rt.alloc();
    // a predicate, and whether the full state meets it
    let table: [(Of, &str, &str, u64, bool); 14] = [
        (Of::Index, "logs-1", "", 0, true),
        (Of::Index, "a", "", 0, false),
        (Of::Alias, "a", "", 0, true),
        (Of::Alias, "logs-0", "", 0, false),
        (Of::Node, "m", "", 0, true),
        (Of::Node, "n1", "", 0, false),
        (Of::Node, "not a name", "", 0, false),
        (Of::Version, "", "", 18446744073709551615, true),
        (Of::Version, "", "", 0, true),
        (Of::Setting, "k2", "é", 0, true),
        (Of::Setting, "k2", "e", 0, false),
        (Of::Setting, "k", "é", 0, false),
        (Of::All, "", "", 0, true),
        (Of::Any, "", "", 0, false),
    ];
    let state = full(alloc)?;
    for (of, name, value, version, met) in table {
        let pred = not(alloc, pred_of(alloc, of, name, value, version)?)?;
        assert!(rt; pred.test(&state) != met, "{name} {value} {version}");
        assert!(rt;
            pred.copy(alloc)?.test(&state) != met,
            "a copy: {name} {value} {version}"
        );
    }
    Ok(())
}

fn look_of(alloc: Global, of: Of, name: &str) -> Result<Look, OutOfMemory> {
    let name = Text::from_str(alloc, name)?;
    match of {
        Of::Index => Ok(Look::Index(name)),
        Of::Alias => Ok(Look::Alias(name)),
        _ => Ok(Look::Setting(name)),
    }
}

fn joined(alloc: Global, names: &Items<Text>) -> Result<String, OutOfMemory> {
    let mut told = String::new(alloc);
    for name in names.as_slice() {
        told.push_str(name.as_str())?;
        told.push_str(" ")?;
    }
    Ok(told)
}

fn told(alloc: Global, found: &Found) -> Result<String, OutOfMemory> {
    match found {
        Found::Missing => Ok(String::from_str(alloc, "missing")?),
        Found::Index {
            id,
            opened,
            shards,
            replicas,
        } => Ok(format!(in alloc; "{id} {opened} {shards} {replicas}")?),
        Found::Names(names) => joined(alloc, names),
        Found::Value(value) => Ok(String::from_str(alloc, value.as_str())?),
    }
}

// What is found in the full state, in which the index "b" has the same aliases as "logs-0".
fn found(alloc: Global, of: Of, name: &str) -> Result<String, OutOfMemory> {
    let look = look_of(alloc, of, name)?;
    let mut state = full(alloc)?;
    put_index(alloc, &mut state, "b", other_index(alloc)?)?;
    told(alloc, &lookup(alloc, &state, &look)?)
}

#[test]
fn a_look_finds_what_is_there(rt: HostRuntime) -> Result<(), Fail> {
    let table = [
        (Of::Index, "logs-0", "3 false 7 0"),
        (Of::Index, "a", "missing"),
        (Of::Alias, "a", "b logs-0 "),
        (Of::Alias, "b2", "missing"),
        (Of::Setting, "k2", "é"),
        (Of::Setting, "k", "missing"),
    ];
    for (of, name, wanted) in table {
        let found = found(rt.alloc(), of, name)?;
        assert_eq!(rt; found.as_str(), wanted, "{name}");
    }
    Ok(())
}

fn change_indices(
    alloc: Global,
    indices: &mut IndexTable,
    name: &str,
    aliases: &[&str],
) -> Result<(), OutOfMemory> {
    let name = Text::from_str(alloc, name)?;
    if aliases.is_empty() {
        indices.remove(&name)
    } else {
        indices.set(name, index_with(alloc, 1, aliases)?)
    }
}

fn holders(alloc: Global, indices: &IndexTable, alias: &str) -> Result<String, OutOfMemory> {
    joined(
        alloc,
        &indices.names_with(alloc, &Text::from_str(alloc, alias)?)?,
    )
}

// An index that is set with these aliases, or taken out, and who has the alias "x" then.
const CHANGES: [(&str, &[&str], &str); 7] = [
    ("b", &["x", "z"], "b "),
    ("a", &["y", "x"], "a b "),
    ("b", &["y"], "a "),
    ("c", &[], "a "),
    ("a", &[], ""),
    ("b", &[], ""),
    ("c", &["x", "y"], "c "),
];

#[test]
fn an_alias_is_found_until_its_last_index_loses_it(rt: HostRuntime) -> Result<(), Fail> {
    let alloc = rt.alloc();
    let mut indices = IndexTable::new(alloc);
    for (name, aliases, wanted) in CHANGES {
        change_indices(alloc, &mut indices, name, aliases)?;
        assert_eq!(rt; holders(alloc, &indices, "x")?.as_str(), wanted, "{name}");
    }
    Ok(())
}
