ghost use Rattle.std.specs.Prelude.{◌≡◌, OnOk};
ghost use Rattle.node_apply.specs.Updated.{updated_at};

use plain_data::{Map, OutOfMemory, Text};

/// Makes a map say of one key what was found there: a value, or none.
pub(crate) fn update<V: Drop>(
    made: &mut Map<V>,
    key: &Text,
    found: Option<V>,
) -> Result<(), OutOfMemory>
    ensures { OnOk result (made.new ≡ updated_at key.now found made.old) }
{
    match found {
        None => made.remove(key),
        Some(value) => made.set(key.copy()?, value),
    }
}
