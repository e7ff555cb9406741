use crate::link_faults::LinkFault;
use crate::messages::Message;
use crate::receipts::Receipt;
use plain_data::Text;

/// The way to one node: it carries messages to the node, and hands it what was committed (Elasticsearch's
/// `PublicationTransportHandler`, without its transport).
pub trait Link {
    ghost use Rattle.std.specs.Prelude.{◌≡◌, ◌≤◌, ◌<◌, ◌^◌, Bool, IfOk, IfErr, OnOk, OnErr, IsErrOf, IsTrue};
    ghost use Rattle.std.specs.declared.option.Option.{Option};
    ghost use Rattle.publication.specs.Messages.{received, AcceptsTarget};
    ghost use Rattle.publication.specs.LinkMeanings.{Fails, LinkMeaning, ScriptMeaning, after_fault, after_message, after_missed, after_hand, HoldsOldOrSent};

    /// What a caller may rely on: the node's name, the state that it holds, whether this is ready to be handed, what
    /// it was handed so far, for how many commits there is room, how many calls have failed, and whether none does. Then
    /// how many publications were sent, and with which of them it was handed each of the states.
    ghost meaning: { Self → LinkMeaning };

    /// How it follows a script, where it tells. No clause of a call speaks of it.
    ghost script: { Self → Option ScriptMeaning };

    /// The name of the node.
    fn node(&self) -> &Text
        ensures { result.now ≡ (meaning self.now).name };

    /// Sends a message, which the node accepts or refuses as incompatible. It leaves what the node was handed, and the
    /// room. What was accepted is ready to be handed. The message is noted whatever is answered, want of memory aside: it
    /// counts one publication more, unless it leads to the state to which the last one led.
    fn receive(&mut self, message: &Message) -> Result<Receipt, LinkFault>
        ensures receipt { IfOk result (λ receipt. receipt ≡ (received (meaning self.old).held message.now).0) }
        ensures ok { OnOk result (meaning self.new ≡ after_message message.now (meaning self.old) (meaning self.new).faults) }

        // What is accepted is the message's state.
        ensures leads { IfOk result (λ receipt. AcceptsTarget receipt (meaning self.new).held message.now) }
        ensures unreachable { IsErrOf result LinkFault.Unreachable → meaning self.new ≡ after_missed message.now (meaning self.old) (meaning self.new).faults }
        ensures cause { IsErrOf result LinkFault.Unreachable → Fails (meaning self.old) (meaning self.new) }
        ensures out_of_memory { IsErrOf result LinkFault.OutOfMemory → HoldsOldOrSent message.now (meaning self.old) (meaning self.new) }
        ensures never_falls { (meaning self.old).faults ≤ (meaning self.new).faults };

    /// Hands the node the state that it holds, which was committed with this version, at the count of publications. It
    /// takes no memory, so that the node's not being reached is its only fault.
    fn hand(&mut self, version: u64) -> Result<(), LinkFault>
        requires version { (meaning self.old).held.version ≡ version }
        requires ready { IsTrue (meaning self.old).ready }
        requires room { 0 < (meaning self.old).room }
        requires bound { version < 2 ^ 32 }
        ensures ok { OnOk result (meaning self.new ≡ after_hand (meaning self.old) (meaning self.new).faults) }
        ensures unreachable { OnErr result (meaning self.new ≡ after_fault (meaning self.old) (meaning self.new).faults) }
        ensures cause { OnErr result (Fails (meaning self.old) (meaning self.new)) }
        ensures fault { IfErr result (λ fault. fault ≡ LinkFault.Unreachable) }
        ensures never_falls { (meaning self.old).faults ≤ (meaning self.new).faults };
}
