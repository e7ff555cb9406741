ghost use Rattle.std.specs.Prelude.{◌≡◌};
ghost use Rattle.ack_words.specs.Countdowns.{told_of};

use crate::answers::{AckExpiry, AckPoll};
use crate::node_masks::NodeMask;
use std::marker::Model;

/// How far the answers to a committed version are.
#[derive(Clone, Copy, Debug)]
pub struct Countdown {
    version: u64,
    missing: NodeMask,
    failures: u32,
    timed: bool,
}

impl Model for Countdown {
    ghost use Rattle.ack_words.specs.Countdowns.{Countdown as Record, IsCounted};

    ghost Value = { Record };

    ghost view = { λ c. record {
      version = c.version;
      missing = c.missing;
      failures = c.failures;
      timed = c.timed;
    } };

    ghost invariant = { λ c. IsCounted c.missing c.failures };

    ghost inverse = { λ c. record {
      version = c.version;
      missing = c.missing;
      failures = c.failures;
      timed = c.timed;
    } };
}

impl Countdown {
    ghost use Rattle.std.specs.Prelude.{◌≡◌};
    ghost use Rattle.ack_words.specs.Countdowns.{answered, asked_of, awaits, begun, expiry_of, failed, poll_of, timed_out};

    /// The countdown of a commit, which waits for these nodes. Where it is late, it has timed out.
    #[tactic(auto, using(crate::proofs::Countings::none_counted))]
    pub fn begin(version: u64, must: NodeMask, late: bool) -> Countdown
        ensures { result ≡ begun version must late }
    {
        Countdown {
            version,
            missing: must,
            failures: 0,
            timed: late,
        }
    }

    /// Whether the answer of a node is missing.
    pub fn awaits(&self, node: u32) -> bool
        ensures { result ≡ awaits node self.now }
    {
        self.missing.has(node)
    }

    /// The version, where the answer of a node to it is missing.
    pub fn asks(&self, node: u32) -> Option<u64>
        ensures { result ≡ asked_of node self.now }
    {
        if self.missing.has(node) {
            Some(self.version)
        } else {
            None
        }
    }

    /// The countdown after a node answered that it applied the version.
    pub fn answered(self, node: u32) -> Countdown
        ensures { result ≡ answered node self }
    {
        Countdown {
            version: self.version,
            missing: self.missing.without(node),
            failures: self.failures,
            timed: self.timed,
        }
    }

    /// The countdown after a node answered that it failed. It counts only where the node's answer is missing.
    #[tactic(auto, using(crate::proofs::Countings::failure_fits, crate::proofs::Masks::without_node_absent))]
    pub fn failed(self, node: u32) -> Countdown
        ensures { result ≡ failed node self }
    {
        if !self.missing.has(node) {
            return self;
        }
        Countdown {
            version: self.version,
            missing: self.missing.without(node),
            failures: self.failures + 1,
            timed: self.timed,
        }
    }

    /// The countdown after its time ran out.
    pub fn timed_out(self) -> Countdown
        ensures { result ≡ timed_out self }
    {
        Countdown {
            version: self.version,
            missing: self.missing,
            failures: self.failures,
            timed: true,
        }
    }

    /// What a try to let it time out is answered, at a reading in milliseconds.
    pub fn expiry(&self, deadline: u64, reading: u64) -> AckExpiry
        ensures { result ≡ expiry_of deadline reading self.now }
    {
        if self.missing.is_empty() {
            AckExpiry::Finished
        } else if self.timed {
            AckExpiry::TimedBefore
        } else if deadline <= reading {
            AckExpiry::Won
        } else {
            AckExpiry::NotDue { deadline }
        }
    }

    /// What a client learns of it.
    pub fn poll(&self) -> AckPoll
        ensures { result ≡ poll_of self.now }
    {
        if self.timed {
            AckPoll::TimedOut
        } else if self.missing.is_empty() {
            told(self.failures)
        } else {
            AckPoll::NotYet
        }
    }
}

// What a client learns of so many failures where no answer is missing.
fn told(failures: u32) -> AckPoll
    ensures { result ≡ told_of failures }
{
    if failures == 0 {
        AckPoll::All
    } else {
        AckPoll::Failed { count: failures }
    }
}
