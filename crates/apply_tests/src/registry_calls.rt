use crate::small_boards::SmallBoard;
use crate::small_states::states_with;
use meta_state::{ClusterState, Pred};
use observers::WatchPart;
use plain_data::{Items, OutOfMemory, Text};
use std::alloc::Global;
use std::test::Fail;

// A watch that begins on a step after so many states were applied: the version that it has to be past, if any, and the
// indices that it waits for, one after the other.
type Begun = (u32, u64, Option<u64>, &'static [&'static str]);

fn preds_of(alloc: Global, names: &[&str]) -> Result<Items<Pred>, OutOfMemory> {
    let mut preds = Items::new(alloc);
    for name in names {
        preds.push(Pred::Index(Text::from_str(alloc, name)?))?;
    }
    Ok(preds)
}

// Begins the watches that begin after so many states. Whether each began.
fn begin_after(
    alloc: Global,
    board: &mut SmallBoard,
    begins: &[Begun],
    states: u64,
) -> Result<bool, OutOfMemory> {
    let mut all = true;
    for (step, after, last, names) in begins {
        if *after == states {
            all = board.begin(*step, *last, preds_of(alloc, names)?)? && all;
        }
    }
    Ok(all)
}

fn number_or(alloc: Global, number: Option<u64>) -> Result<String, OutOfMemory> {
    match number {
        None => Ok(format!(in alloc; "-")?),
        Some(number) => Ok(format!(in alloc; "{number}")?),
    }
}

fn line_of(alloc: Global, part: &WatchPart) -> Result<String, OutOfMemory> {
    let last = number_or(alloc, part.last)?;
    let answered = number_or(alloc, part.answered)?;
    let (step, number, place, shown) = (part.watch.step, part.part, part.place, part.shown);
    Ok(format!(in alloc;
        "{step}.{number} last {last} from {place} shown {shown} answered {answered}\n"
    )?)
}

// Shows the watches of a node its states after the first one, in order, while watches begin. Whether each began.
fn show_all(
    alloc: Global,
    board: &mut SmallBoard,
    states: &[ClusterState],
    begins: &[Begun],
) -> Result<bool, OutOfMemory> {
    let mut began = begin_after(alloc, board, begins, 0)?;
    let mut count: u64 = 0;
    for state in states.iter().skip(1) {
        count = count.saturating_add(1);
        board.apply(alloc, state)?;
        began = begin_after(alloc, board, begins, count)? && began;
    }
    Ok(began)
}

fn board_of(alloc: Global, states: &[ClusterState]) -> Result<SmallBoard, OutOfMemory> {
    match states.first() {
        None => Err(OutOfMemory),
        Some(first) => SmallBoard::create(alloc, first.copy(alloc)?),
    }
}

fn lines_of(alloc: Global, parts: &[WatchPart]) -> Result<String, OutOfMemory> {
    let mut lines = String::new(alloc);
    for part in parts {
        lines.push_str(line_of(alloc, part)?.as_str())?;
    }
    Ok(lines)
}

fn lines_if(
    alloc: Global,
    parts: Items<WatchPart>,
    began: Result<bool, OutOfMemory>,
) -> Result<String, OutOfMemory> {
    match began {
        Ok(true) => lines_of(alloc, parts.as_slice()),
        Ok(false) => Ok(format!(in alloc; "a watch didn't begin")?),
        Err(refused) => Err(refused),
    }
}

fn told_by(
    alloc: Global,
    mut board: SmallBoard,
    states: &[ClusterState],
    begins: &[Begun],
) -> Result<String, OutOfMemory> {
    let began = show_all(alloc, &mut board, states, begins);
    lines_if(alloc, board.finish(), began)
}

// A line for each part of the watches of a node that has a first state, and then creates the indices `a`, `b` and `c`.
fn told(alloc: Global, begins: &[Begun]) -> Result<String, OutOfMemory> {
    let states = states_with(alloc, &["n0"], &["a", "b", "c"])?;
    told_by(
        alloc,
        board_of(alloc, states.as_slice())?,
        states.as_slice(),
        begins,
    )
}

#[test]
fn a_watch_is_tested_at_once_and_then_shown_each_state_until_one_answers_it(
    rt: HostRuntime,
) -> Result<(), Fail> {
    let alloc = rt.alloc();
    let table: [(&[Begun], &str); 5] = [
        (
            &[(0, 0, None, &["b"]), (1, 1, None, &["z"])],
            "0.0 last - from 0 shown 3 answered 3\n1.0 last - from 1 shown 3 answered -\n",
        ),
        (
            &[(2, 1, None, &["a"]), (3, 1, Some(2), &["a"])],
            "2.0 last - from 1 shown 1 answered 2\n3.0 last 2 from 1 shown 2 answered 3\n",
        ),
        (
            &[(0, 0, None, &["a", "b"])],
            "0.0 last - from 0 shown 2 answered 2\n0.1 last 2 from 1 shown 2 answered 3\n",
        ),
        (
            &[(3, 0, None, &["c", "a"]), (1, 0, None, &["a", "a", "z"])],
            "3.0 last - from 0 shown 4 answered 4\n3.1 last 4 from 3 shown 1 answered -\n1.0 last - from 0 shown 2 answered 2\n1.1 last 2 from 1 shown 2 answered 3\n1.2 last 3 from 2 shown 2 answered -\n",
        ),
        (&[], ""),
    ];
    for (begins, expected) in table {
        let lines = told(alloc, begins)?;
        assert_eq!(rt; lines.as_str(), expected);
    }
    Ok(())
}
