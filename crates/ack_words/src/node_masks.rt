use std::marker::Model;

// The numbers of nodes are below this.
const NODES: u32 = 30;

/// A set of nodes, by their numbers in the order of the script from 0, which are below 30. Contracts see the list of 30
/// flags, of which each says whether its node is in the set.
#[derive(Clone, Copy, Debug)]
pub struct NodeMask {
    bits: u32,
}

impl Model for NodeMask {
    ghost use Rattle.std.specs.Prelude.{Bool, List, ◌<◌, ◌^◌};

    ghost Value = { List Bool };

    ghost use Rattle.ack_words.specs.Flags.{flags_of, number_of, number_of-flags_of};

    ghost view = { λ m. flags_of 30 m.bits };

    ghost invariant = { λ m. m.bits < 2 ^ 30 };

    ghost inverse = { λ flags. record { bits = number_of flags } };

    ghost inverse_ok = { λ m fits i. record { bits = number_of-flags_of 30 m.bits fits i } };
}

impl NodeMask {
    ghost use Rattle.std.specs.Prelude.{◌≡◌, ◌<◌, length, IsFalse};
    ghost use Rattle.ack_words.specs.Masks.{has_node, is_without_nodes, no_nodes, with_node, without_node};

    /// The empty set.
    #[tactic(auto, using(crate::proofs::Masks::no_nodes_kept))]
    pub fn none() -> NodeMask
        ensures { result ≡ no_nodes }
    {
        NodeMask { bits: 0 }
    }

    /// The set with a node more.
    #[tactic(auto, using(crate::proofs::Masks::with_node_kept, crate::proofs::Masks::with_node_below, crate::proofs::Masks::with_node_some))]
    pub fn with(self, node: u32) -> NodeMask
        requires { node < 30 }
        ensures flags { result ≡ with_node node self }
        ensures some { IsFalse (is_without_nodes result) }
    {
        NodeMask {
            bits: self.bits | (1 << node),
        }
    }

    /// The set without a node.
    #[tactic(auto, using(crate::proofs::Masks::without_node_kept, crate::proofs::Masks::without_node_above))]
    pub fn without(self, node: u32) -> NodeMask
        ensures { result ≡ without_node node self }
    {
        if node >= NODES {
            return self;
        }
        NodeMask {
            bits: self.bits & !(1 << node),
        }
    }

    /// Whether a node is in the set.
    #[tactic(auto, using(crate::proofs::Masks::has_node_kept, crate::proofs::Masks::has_node_above, crate::proofs::Masks::flags_length))]
    pub fn has(self, node: u32) -> bool
        ensures answer { result ≡ has_node node self }
        ensures length { length self ≡ 30 }
    {
        if node >= NODES {
            return false;
        }
        (self.bits >> node) & 1 == 1
    }

    /// Whether no node is in the set.
    #[tactic(auto, using(crate::proofs::Masks::is_without_nodes_kept))]
    pub fn is_empty(self) -> bool
        ensures { result ≡ is_without_nodes self }
    {
        self.bits == 0
    }
}
