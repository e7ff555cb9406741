/// What came of a node's turn to apply a commit.
#[derive(Clone, Copy, Debug, PartialEq, Eq)]
pub enum ApplyOutcome {
    /// No commit waits.
    None,

    /// The state of this version was applied.
    Applied { version: u64 },

    /// The script let the apply of this version fail. The applied state and the views are as before.
    FailedByScript { version: u64 },
}
