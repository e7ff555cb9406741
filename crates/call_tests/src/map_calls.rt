use plain_data::{Boxed, Items, Map, NameSet, OutOfMemory, Text};
use std::alloc::Global;
use std::collections::BTreeMap;
use std::test::Fail;
use std::thread::join;

// The number after `state` in a sequence that looks like chance and is the same each time.
fn scattered(state: u64) -> u64 {
    state.wrapping_mul(6364136223846793005).wrapping_add(1)
}

fn key_of(alloc: Global, number: u64) -> Result<Text, Fail> {
    Ok(Text::from_string(format!(in alloc; "{number:08}")?))
}

// A map, and a plain one that is to have the same pairs.
#[derive(Drop)]
struct Both {
    map: Map<u64>,
    plain: BTreeMap<Text, u64>,
}

impl Both {
    fn new(alloc: Global) -> Both {
        Both {
            map: Map::new(alloc),
            plain: BTreeMap::new(alloc),
        }
    }

    fn copy(&self) -> Result<Both, Fail> {
        Ok(Both {
            map: self.map.copy()?,
            plain: self.plain.clone()?,
        })
    }

    fn set(&mut self, key: Text, value: u64) -> Result<(), Fail> {
        self.plain.insert(key.copy()?, value)?;
        Ok(self.map.set(key, value)?)
    }

    fn remove(&mut self, key: &Text) -> Result<(), OutOfMemory> {
        let _ = self.plain.remove(key);
        self.map.remove(key)
    }

    // Makes one change, which `state` picks, in each.
    fn change(&mut self, alloc: Global, state: u64) -> Result<(), Fail> {
        let key = key_of(alloc, (state >> 40) % 300)?;
        if (state >> 33) % 3 == 0 {
            Ok(self.remove(&key)?)
        } else {
            self.set(key, state)
        }
    }

    // Whether both find the same at a key that `state` picks.
    fn finds_alike(&self, alloc: Global, state: u64) -> Result<bool, Fail> {
        let key = key_of(alloc, (state >> 30) % 300)?;
        Ok(self.map.get(&key) == self.plain.get(&key))
    }

    // Whether a walk over each gives the same pairs.
    fn walks_alike(&self) -> bool {
        let mut pairs = self.map.iter();
        for (key, value) in self.plain.iter() {
            match pairs.next() {
                Some((name, number)) if name == key && number == value => {}
                _ => return false,
            }
        }
        pairs.next().is_none() && self.map.len() == self.plain.len()
    }
}

#[test]
fn a_map_does_what_a_plain_map_does(rt: HostRuntime) -> Result<(), Fail> {
    let alloc = rt.alloc();
    let mut both = Both::new(alloc);
    let mut older = Both::new(alloc);
    let mut state = 1u64;
    for turn in 0..3000u64 {
        state = scattered(state);
        both.change(alloc, state)?;
        assert!(rt; both.finds_alike(alloc, state)?);
        if turn % 100 == 0 {
            assert!(rt; both.walks_alike() && older.walks_alike());
            older = both.copy()?;
        }
    }
    Ok(())
}

// The key of a turn: they rise, fall, or are scattered.
fn number_of(kind: u64, turn: u64) -> u64 {
    match kind {
        0 => turn,
        1 => 1000 - turn % 1000,
        _ => scattered(turn) >> 44,
    }
}

// A map of a thousand pairs set in this order, and how deep it is before and after nine hundred are taken out.
fn depths(alloc: Global, kind: u64) -> Result<(usize, usize), Fail> {
    let mut map = Map::new(alloc);
    for turn in 0..1000u64 {
        map.set(key_of(alloc, number_of(kind, turn))?, turn)?;
    }
    let full = map.depth();
    for turn in 0..900u64 {
        map.remove(&key_of(alloc, turn)?)?;
    }
    Ok((full, map.depth()))
}

#[test]
fn a_map_stays_flat(rt: HostRuntime) -> Result<(), Fail> {
    for kind in 0..3u64 {
        // A thousand pairs fill ten levels, and the hundred or more that are left fill seven.
        let (full, thinned) = depths(rt.alloc(), kind)?;
        assert!(rt; 10 <= full && full <= 20, "{full}");
        assert!(rt; 7 <= thinned && thinned <= 20, "{thinned}");
    }
    Ok(())
}

#[test]
fn a_copy_is_read_from_another_thread(rt: HostRuntime) -> Result<(), Fail> {
    let alloc = rt.alloc();
    let mut map = Map::new(alloc);
    for number in 0..50u64 {
        map.set(key_of(alloc, number)?, number)?;
    }
    let key = key_of(alloc, 7)?;
    let theirs = map.copy()?;
    let (there, here) = join(&rt, move || theirs.len(), || map.contains_key(&key));
    assert_eq!(rt; there, 50);
    assert!(rt; here);
    Ok(())
}

fn is_word(name: Option<&Text>, word: &str) -> bool {
    match name {
        None => false,
        Some(name) => name.as_str() == word,
    }
}

#[test]
fn names_are_shown_in_byte_order(rt: HostRuntime) -> Result<(), Fail> {
    let alloc = rt.alloc();
    let mut names = NameSet::new(alloc);
    for name in ["b", "a", "B", "b"] {
        names.insert(Text::from_str(alloc, name)?)?;
    }
    names.remove(&Text::from_str(alloc, "a")?)?;
    let copy = names.copy()?;
    let mut left = copy.iter();
    assert!(rt; is_word(left.next(), "B") && is_word(left.next(), "b") && left.next().is_none());
    Ok(())
}

#[test]
fn lists_and_boxes_are_made(rt: HostRuntime) -> Result<(), Fail> {
    let alloc = rt.alloc();
    let mut items = Items::new(alloc);
    items.push(Boxed::new(alloc, 7u64)?)?;
    assert_eq!(rt; items.pop().map(|last| last.into_inner()), Some(7));
    Ok(())
}
