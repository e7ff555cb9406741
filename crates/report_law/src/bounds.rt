ghost use Rattle.std.specs.List.{AllByRecursion};
ghost use Rattle.report_law.specs.Bounds.{IsBoundedAck, IsBoundedAckEnd, IsBoundedApply, IsBoundedApplyEnd, IsBoundedBatch, IsBoundedEnd, IsBoundedEntry, IsBoundedFound, IsBoundedIndex, IsBoundedLast, IsBoundedMetadata, IsBoundedNode, IsBoundedRead, IsBoundedReply, IsBoundedResult, IsBoundedSession, IsBoundedState, IsBoundedWatch, IsBoundedWatchEnd, IsWord};

use meta_state::{ClusterState, Found, IndexMetadata, Metadata};
use plain_data::{Items, Map, Pairs};
use session_law::{
    AckEnd, AckReply, Apply, ApplyEnd, Batch, BatchResult, Entry, NodeRec, Read, Reply, Session,
    TaskEnd, Watch, WatchEnd,
};

// A contract learns that a number is one of its type where code reads it. So what the types say of a whole session is
// learnt by reading each of its numbers once.

/// What the types say of a session's numbers: each has 64 bits at most. It reads them and does nothing.
pub fn numbers_are_words(session: &Session)
    ensures { IsBoundedSession session.now }
{
    session.bound();
}

/// A thing whose numbers have 64 bits at most.
trait Bounded {
    ghost is_bounded: { Self → Type 0 };

    /// Reads each of its numbers.
    fn bound(&self)
        ensures { is_bounded self.now };
}

impl Bounded for u64 {
    ghost is_bounded = { IsWord };

    fn bound(&self) {
        let _number = *self;
    }
}

impl Bounded for u32 {
    ghost is_bounded = { IsWord };

    fn bound(&self) {
        let _number = *self;
    }
}

impl<T: Bounded> Bounded for Items<T> {
    ghost is_bounded = { AllByRecursion T.is_bounded };

    fn bound(&self) {
        for item in self.as_slice() {
            item.bound();
        }
    }
}

impl<V: Bounded> Bounded for Map<V> {
    ghost is_bounded = { AllByRecursion (λ p. V.is_bounded p.1) };

    fn bound(&self) {
        bound_pairs(self.iter());
    }
}

fn bound_pairs<V: Bounded>(pairs: Pairs<'_, V>)
    ensures { AllByRecursion (λ p. V.is_bounded p.1) pairs.entry }
{
    for (_, value) in pairs {
        value.bound();
    }
}

impl Bounded for Entry {
    ghost is_bounded = { IsBoundedEntry };

    fn bound(&self) {
        self.client.bound();
        self.step.bound();
        self.seen.bound();
    }
}

impl Bounded for BatchResult {
    ghost is_bounded = { IsBoundedResult };

    fn bound(&self) {
        match self {
            BatchResult::Published {
                version,
                id,
                commit,
                diffs,
                fulls,
                accepted,
            } => {
                version.bound();
                id.bound();
                commit.bound();
                diffs.bound();
                fulls.bound();
                accepted.bound();
            }
            BatchResult::Unchanged { version } => version.bound(),
            BatchResult::Failed { position, .. } => position.bound(),
            BatchResult::NotMaster => {}
            BatchResult::PublishFailed {
                id,
                diffs,
                fulls,
                accepted,
            } => {
                id.bound();
                diffs.bound();
                fulls.bound();
                accepted.bound();
            }
        }
    }
}

impl Bounded for Batch {
    ghost is_bounded = { IsBoundedBatch };

    fn bound(&self) {
        self.at.bound();
        self.entries.bound();
        self.result.bound();
    }
}

impl Bounded for TaskEnd {
    ghost is_bounded = { IsBoundedEnd };

    fn bound(&self) {
        match self {
            TaskEnd::Ok { version } | TaskEnd::Unchanged { version } => version.bound(),
            TaskEnd::BatchFailed { position, .. } => position.bound(),
            TaskEnd::Refused { .. } | TaskEnd::NotMaster | TaskEnd::PublishFailed => {}
            TaskEnd::Timeout { deadline, reading } => {
                deadline.bound();
                reading.bound();
            }
            TaskEnd::Closed { client, step } => {
                client.bound();
                step.bound();
            }
        }
    }
}

impl Bounded for Reply {
    ghost is_bounded = { IsBoundedReply };

    fn bound(&self) {
        self.client.bound();
        self.step.bound();
        self.at.bound();
        self.end.bound();
    }
}

impl Bounded for AckEnd {
    ghost is_bounded = { IsBoundedAckEnd };

    fn bound(&self) {
        match self {
            AckEnd::All => {}
            AckEnd::Failed { count } => count.bound(),
            AckEnd::Timeout { deadline, reading } => {
                deadline.bound();
                reading.bound();
            }
        }
    }
}

impl Bounded for AckReply {
    ghost is_bounded = { IsBoundedAck };

    fn bound(&self) {
        self.client.bound();
        self.step.bound();
        self.end.bound();
    }
}

impl Bounded for Option<u64> {
    ghost is_bounded = { IsBoundedLast };

    fn bound(&self) {
        if let Some(number) = self {
            number.bound();
        }
    }
}

impl Bounded for WatchEnd {
    ghost is_bounded = { IsBoundedWatchEnd };

    fn bound(&self) {
        match self {
            WatchEnd::Answered { version } => version.bound(),
            WatchEnd::Timeout { deadline, reading } => {
                deadline.bound();
                reading.bound();
            }
            WatchEnd::Closed { client, step } => {
                client.bound();
                step.bound();
            }
        }
    }
}

impl Bounded for Watch {
    ghost is_bounded = { IsBoundedWatch };

    fn bound(&self) {
        self.client.bound();
        self.step.bound();
        self.part.bound();
        self.at.bound();
        self.last.bound();
        self.place.bound();
        self.shown.bound();
        self.end.bound();
    }
}

impl Bounded for Found {
    ghost is_bounded = { IsBoundedFound };

    fn bound(&self) {
        if let Found::Index {
            id,
            shards,
            replicas,
            ..
        } = self
        {
            id.bound();
            shards.bound();
            replicas.bound();
        }
    }
}

impl Bounded for Read {
    ghost is_bounded = { IsBoundedRead };

    fn bound(&self) {
        self.client.bound();
        self.step.bound();
        self.version.bound();
        self.found.bound();
    }
}

impl Bounded for ApplyEnd {
    ghost is_bounded = { IsBoundedApplyEnd };

    fn bound(&self) {
        if let ApplyEnd::Applied {
            high,
            normal,
            low,
            listeners,
            ..
        } = self
        {
            high.bound();
            normal.bound();
            low.bound();
            listeners.bound();
        }
    }
}

impl Bounded for Apply {
    ghost is_bounded = { IsBoundedApply };

    fn bound(&self) {
        self.from.bound();
        self.to.bound();
        self.end.bound();
    }
}

impl Bounded for NodeRec {
    ghost is_bounded = { IsBoundedNode };

    fn bound(&self) {
        self.handed.bound();
        self.first.bound();
        self.applies.bound();
        self.view.indices.bound();
    }
}

impl Bounded for IndexMetadata {
    ghost is_bounded = { IsBoundedIndex };

    fn bound(&self) {
        self.id.bound();
        self.version.bound();
        self.settings_version.bound();
        self.aliases_version.bound();
        self.shards.bound();
        self.replicas.bound();
    }
}

impl Bounded for Metadata {
    ghost is_bounded = { IsBoundedMetadata };

    fn bound(&self) {
        self.version.bound();
        self.created.bound();
        bound_pairs(self.indices.iter());
    }
}

impl Bounded for ClusterState {
    ghost is_bounded = { IsBoundedState };

    fn bound(&self) {
        self.id.bound();
        self.term.bound();
        self.version.bound();
        self.metadata.bound();
    }
}

impl Bounded for Session {
    ghost is_bounded = { IsBoundedSession };

    fn bound(&self) {
        self.batches.bound();
        self.replies.bound();
        self.acks.bound();
        self.watches.bound();
        self.reads.bound();
        self.nodes.bound();
        self.last.bound();
    }
}
