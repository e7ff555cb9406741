ghost use Rattle.std.specs.Prelude.{◌≡◌, IfOk};
ghost use Rattle.std.specs.Ordering.{eq_by_cmp};
ghost use Rattle.report_law.specs.Apart.{are_apart_by};

use plain_data::OutOfMemory;
use std::alloc::Global;
use std::collections::BTreeSet;

/// Whether no two of these keys are equal. Each is looked up among those before it, so n keys cost n log n steps.
#[tactic(auto, using(crate::proofs::Keys::one_joins, crate::proofs::Keys::one_stands_twice, crate::proofs::Keys::none_seen))]
pub(crate) fn are_keys_apart<K: Ord + Drop>(
    alloc: Global,
    keys: Vec<K>,
) -> Result<bool, OutOfMemory>
    ensures { IfOk result (λ apart. apart ≡ are_apart_by (eq_by_cmp K.cmp) keys.items) }
{
    let mut seen = BTreeSet::new(alloc);
    for key in keys {
        if !seen.insert(key)? {
            return Ok(false);
        }
    }
    Ok(true)
}
