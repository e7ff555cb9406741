/// How far a watch is. A watch is answered by the last of its parts alone.
#[derive(Clone, Copy, Debug, PartialEq, Eq)]
pub enum WatchWord {
    /// It wasn't begun.
    Vacant,

    /// It waits on a node, by its number in the script's order. The deadline is in milliseconds.
    Waiting { node: u32, deadline: u64 },

    /// A state of the node, of this version, answered it.
    Answered { node: u32, version: u64 },

    /// It timed out, at this reading in milliseconds.
    Timed { reading: u64 },

    /// The close step ended it.
    Closed,
}
