/// What a node answers to a message.
#[derive(Clone, Copy, Debug, PartialEq, Eq)]
pub enum Receipt {
    /// It holds the message's state now.
    Accepted,

    /// The message is a diff of another state than the one that the node holds, and doesn't lead to that one either
    /// (Elasticsearch's `IncompatibleClusterStateVersionException`). It changes nothing.
    Incompatible {
        /// The identifier of the state that the node holds.
        has: u64,

        /// The identifier of the state that the diff was made from.
        wants: u64,
    },
}
