use crate::answers::{AckExpiry, AckPoll};
use crate::countdowns::Countdown;
use crate::node_masks::NodeMask;
use crate::words::AckWord;
use plain_data::{Items, OutOfMemory};
use std::alloc::Global;
use std::marker::Model;

/// The words of acknowledgements for one thread: a word for each acknowledgement, which are numbered through the lanes in
/// order, and for each node the greatest version that it has applied. Every answer is exact. A call names the lane that
/// makes it, which this form doesn't need. It keeps neither which lane an acknowledgement is of nor which nodes had to
/// answer: no call has a condition on these. A node that didn't have to answer is one whose answer isn't missing.
#[derive(Drop)]
pub struct PlainAcks {
    words: Items<AckWord>,
    applied: Items<u64>,
}

impl Model for PlainAcks {
    ghost use Rattle.ack_words.specs.Acks.{AckTable};

    ghost Value = { AckTable };

    ghost view = { λ t. record { words = t.words; applied = t.applied } };
}

impl PlainAcks {
    ghost use Rattle.std.specs.Prelude.{◌≡◌, ◌<◌, ◌≤◌, ◌^◌, length, IfOk, IsFalse, IsTrue, sum};
    ghost use Rattle.ack_words.specs.declared.words.AckWord.{AckWord};
    ghost use Rattle.ack_words.specs.Masks.{is_without_nodes};
    ghost use Rattle.ack_words.specs.Countdowns.{awaits, expiry_of, failed};
    ghost use Rattle.ack_words.specs.Acks.{applied_at, committed, counts_for, expired_by, is_started, vacant_table, with_applied, with_word, word_answered, word_asks, word_at, word_awaits, word_expiry, word_failed, word_poll};

    /// The words for lanes with so many acknowledgements each and for so many nodes, with nothing started and nothing
    /// applied. No later call takes memory.
    pub fn create(alloc: Global, acks: &[u32], nodes: u32) -> Result<PlainAcks, OutOfMemory>
        requires { sum acks.now < 2 ^ 18 }
        ensures { IfOk result (λ made. made ≡ vacant_table acks.now nodes) }
    {
        let count: u32 = acks.iter().sum();
        Ok(PlainAcks {
            words: Items::from_vec(vec![in alloc; AckWord::Vacant; count as usize]?),
            applied: Items::from_vec(vec![in alloc; 0; nodes as usize]?),
        })
    }

    /// The master starts an acknowledgement, before the first message of its batch's publication. The deadline is in
    /// milliseconds: 2^43 - 1 stands for none.
    pub fn start(&mut self, ack: u32, deadline: u64)
        requires ack { ack < length self.old.words }
        requires vacant { word_at self.old ack ≡ AckWord.Vacant }
        requires deadline { deadline < 2 ^ 43 }
        ensures { self.new ≡ with_word ack (AckWord.Started deadline) self.old }
    {
        self.put(ack, AckWord::Started { deadline });
    }

    /// The master tells that the version of an acknowledgement's task was committed, before any node is handed it, and
    /// which nodes have to answer. Where the commit is late, the acknowledgement times out at once.
    pub fn committed(&mut self, ack: u32, version: u64, must: NodeMask, late: bool)
        requires ack { ack < length self.old.words }
        requires started { IsTrue (is_started (word_at self.old ack)) }
        requires must { IsFalse (is_without_nodes must) }
        requires version { version < 2 ^ 32 }
        ensures { self.new ≡ with_word ack (committed version must late (word_at self.old ack)) self.old }
    {
        if let AckWord::Started { deadline } = self.word(ack) {
            let countdown = Countdown::begin(version, must, late);
            self.put(
                ack,
                AckWord::Counting {
                    deadline,
                    countdown,
                },
            );
        }
    }

    /// The master, or the node itself, tells that a node failed to apply the version of an acknowledgement. False where the
    /// node's answer isn't missing: nothing changes then.
    pub fn node_failed(&mut self, ack: u32, node: u32) -> bool
        requires { ack < length self.old.words }
        ensures counted { result ≡ word_awaits node (word_at self.old ack) }
        ensures word { self.new ≡ with_word ack (word_failed node (word_at self.old ack)) self.old }
    {
        match self.word(ack) {
            AckWord::Counting {
                deadline,
                countdown,
            } => self.fail(ack, node, deadline, countdown),
            AckWord::Vacant | AckWord::Started { .. } => false,
        }
    }

    /// A node answers that it applied the version of an acknowledgement.
    pub fn node_ok(&mut self, node: u32, ack: u32, version: u64)
        requires ack { ack < length self.old.words }
        requires applied { version ≤ applied_at self.old node }
        requires committed { IsTrue (counts_for version (word_at self.old ack)) }
        ensures { self.new ≡ with_word ack (word_answered node (word_at self.old ack)) self.old }
    {
        if let AckWord::Counting {
            deadline,
            countdown,
        } = self.word(ack)
        {
            let countdown = countdown.answered(node);
            self.put(
                ack,
                AckWord::Counting {
                    deadline,
                    countdown,
                },
            );
        }
    }

    /// A node tells that it applied a version. A version below one that it told before changes nothing.
    pub fn raise_applied(&mut self, node: u32, version: u64)
        requires { node < length self.old.applied }
        ensures { self.new ≡ with_applied node version self.old }
    {
        let before = self.applied(node);
        self.applied.set(node as usize, before.max(version));
    }

    /// The version to which a node's answer is missing, where something was committed for the acknowledgement and the
    /// node's answer is missing.
    pub fn asks(&self, node: u32, ack: u32) -> Option<u64>
        requires { ack < length self.now.words }
        ensures { result ≡ word_asks node (word_at self.now ack) }
    {
        match self.word(ack) {
            AckWord::Counting { countdown, .. } => countdown.asks(node),
            AckWord::Vacant | AckWord::Started { .. } => None,
        }
    }

    /// Lets an acknowledgement time out, at a reading in milliseconds, where answers are missing and its deadline is at
    /// most the reading.
    pub fn expire(&mut self, _lane: u32, ack: u32, reading: u64) -> AckExpiry
        requires { ack < length self.old.words }
        ensures answer { result ≡ word_expiry reading (word_at self.old ack) }
        ensures table { self.new ≡ expired_by ack result self.old }
    {
        match self.word(ack) {
            AckWord::Counting {
                deadline,
                countdown,
            } => { self.expire_counting(ack, deadline, countdown, reading) }
            AckWord::Vacant | AckWord::Started { .. } => AckExpiry::NotCommitted,
        }
    }

    /// What a client learns of its acknowledgement.
    pub fn poll(&self, _lane: u32, ack: u32) -> AckPoll
        requires { ack < length self.now.words }
        ensures { result ≡ word_poll (word_at self.now ack) }
    {
        match self.word(ack) {
            AckWord::Counting { countdown, .. } => countdown.poll(),
            AckWord::Vacant | AckWord::Started { .. } => AckPoll::NotYet,
        }
    }

    /// The greatest version that a node has applied; 0 where it has applied none.
    pub fn floor(&self, _lane: u32, node: u32) -> u64
        requires { node < length self.now.applied }
        ensures { result ≡ applied_at self.now node }
    {
        self.applied(node)
    }

    // How far an acknowledgement is.
    fn word(&self, ack: u32) -> AckWord
        requires { ack < length self.now.words }
        ensures { result ≡ word_at self.now ack }
    {
        self.words.as_slice()[ack as usize]
    }

    // Counts a failure in this countdown of an acknowledgement.
    fn fail(&mut self, ack: u32, node: u32, deadline: u64, countdown: Countdown) -> bool
        requires ack { ack < length self.old.words }
        requires counting { word_at self.old ack ≡ AckWord.Counting deadline countdown }
        ensures counted { result ≡ awaits node countdown }
        ensures word { self.new ≡ with_word ack (AckWord.Counting deadline (failed node countdown)) self.old }
    {
        let counted = countdown.awaits(node);
        let countdown = countdown.failed(node);
        self.put(
            ack,
            AckWord::Counting {
                deadline,
                countdown,
            },
        );
        counted
    }

    // Lets this countdown of an acknowledgement time out.
    fn expire_counting(
        &mut self,
        ack: u32,
        deadline: u64,
        countdown: Countdown,
        reading: u64,
    ) -> AckExpiry
        requires ack { ack < length self.old.words }
        requires counting { word_at self.old ack ≡ AckWord.Counting deadline countdown }
        ensures answer { result ≡ expiry_of deadline reading countdown }
        ensures table { self.new ≡ expired_by ack result self.old }
    {
        let answer = countdown.expiry(deadline, reading);
        if let AckExpiry::Won = answer {
            let countdown = countdown.timed_out();
            self.put(
                ack,
                AckWord::Counting {
                    deadline,
                    countdown,
                },
            );
        }
        answer
    }

    // Sets the word of an acknowledgement.
    fn put(&mut self, ack: u32, word: AckWord)
        requires { ack < length self.old.words }
        ensures { self.new ≡ with_word ack word self.old }
    {
        self.words.set(ack as usize, word);
    }

    // The applied version of a node.
    fn applied(&self, node: u32) -> u64
        requires { node < length self.now.applied }
        ensures { result ≡ applied_at self.now node }
    {
        self.applied.as_slice()[node as usize]
    }
}
