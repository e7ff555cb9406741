ghost use Rattle.std.specs.Prelude.{◌≡◌, [], ◌∷◌, IfOk};
ghost use Rattle.observers.specs.declared.watch_words.WatchWord.{WatchWord};

use meta_state::WatchId;
use observers::PlainWatches;
use plain_data::OutOfMemory;
use std::alloc::Global;

/// The words of two watches of one client: that of step 0 waits on node 0 until 5, that of step 1 on node 1 until 7.
pub fn pair_armed(alloc: Global) -> Result<PlainWatches, OutOfMemory>
    ensures { IfOk result (λ made. made ≡ (WatchWord.Waiting 0 5 ∷ WatchWord.Waiting 1 7 ∷ []) ∷ []) }
{
    let mut table = PlainWatches::create(alloc, [2].as_slice(), 2)?;
    table.arm(0, WatchId { client: 0, step: 0 }, 0, 5);
    table.arm(0, WatchId { client: 0, step: 1 }, 1, 7);
    Ok(table)
}
