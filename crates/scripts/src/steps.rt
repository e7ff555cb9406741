use executors::Task;
use meta_state::{Look, Pred};
use plain_data::{Items, Text};

/// What a client does next. Times are milliseconds.
#[derive(Debug, Drop)]
pub enum Step {
    /// Submits a task to a queue, by the queue's number.
    Submit {
        queue: u32,
        task: Task,

        /// How long it may wait; none is for ever.
        timeout: Option<u64>,
        ack: Option<Ack>,
    },

    /// Waits for what an earlier step of this client began.
    Await {
        step: u32,
        goal: Goal,
    },

    /// Watches a node's applied states, by the node's name, until the predicate is met, and then each of `then` in
    /// turn.
    Watch {
        node: Text,
        pred: Pred,
        then: Items<Pred>,
        timeout: u64,
    },

    /// Goes on where an earlier watch of this client ended.
    Next {
        watch: u32,
        pred: Pred,
        then: Items<Pred>,
        timeout: u64,
    },

    /// Looks into a node's applied state.
    Read {
        node: Text,
        look: Look,
    },

    /// Lets this long pass.
    Sleep {
        ms: u64,
    },

    /// Ends what still waits.
    Close,
}

/// Which nodes are to acknowledge a task's state.
#[derive(Debug, Drop)]
pub struct Ack {
    /// The asked nodes, by name; none asks all. The master is always required.
    pub nodes: Option<Items<Text>>,

    /// How long, from the start of the publication. None is for ever, and 0 is over at commit.
    pub timeout: Option<u64>,
}

/// What an await waits for.
#[derive(Clone, Copy, Debug, PartialEq, Eq)]
pub enum Goal {
    /// The end of a task.
    Task,

    /// The end of a task's acknowledgement.
    Ack,

    /// The end of a watch.
    Watch,
}
