ghost use Rattle.std.specs.Prelude.{◌≡◌, [], ◌∷◌, ◌<◌, ◌^◌, IfOk, IsFalse};
ghost use Rattle.ack_words.specs.Masks.{is_without_nodes, no_nodes, with_node};
ghost use Rattle.ack_words.specs.Countdowns.{begun};
ghost use Rattle.ack_words.specs.declared.words.AckWord.{AckWord};

use ack_words::{NodeMask, PlainAcks};
use plain_data::OutOfMemory;
use std::alloc::Global;

/// The nodes 0 and 1.
pub fn first_nodes() -> NodeMask
    ensures nodes { result ≡ with_node 1 (with_node 0 no_nodes) }
    ensures some { IsFalse (is_without_nodes result) }
{
    NodeMask::none().with(0).with(1)
}

/// The words of one acknowledgement and of two nodes: version 2 was committed for it, which both nodes have applied, and
/// the answers of both are missing.
pub fn pair_committed(alloc: Global, deadline: u64, late: bool) -> Result<PlainAcks, OutOfMemory>
    requires { deadline < 2 ^ 43 }
    ensures { IfOk result (λ made. made ≡ record { words = AckWord.Counting deadline (begun 2 (with_node 1 (with_node 0 no_nodes)) late) ∷ []; applied = 2 ∷ 2 ∷ [] }) }
{
    let mut table = PlainAcks::create(alloc, [1].as_slice(), 2)?;
    table.start(0, deadline);
    table.committed(0, 2, first_nodes(), late);
    table.raise_applied(0, 2);
    table.raise_applied(1, 2);
    Ok(table)
}
