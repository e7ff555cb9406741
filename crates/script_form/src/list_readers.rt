ghost use Rattle.std.specs.Prelude.{◌≡◌, ◌<◌, ◌≤◌, [], ◌∷◌, ◌++◌, ℕ, IfOk, List, Result, length, map};
ghost use Rattle.serde_json.specs.Data.{Data};
ghost use Rattle.serde_json.specs.View.{view};
ghost use Rattle.script_form.specs.declared.misfits.Misfit.{Misfit};
ghost use Rattle.script_form.specs.Misfits.{Reads};
ghost use Rattle.script_form.specs.Parts.{each};

use crate::misfits::{Misfit, in_place};
use plain_data::Items;
use serde_json::Value;
use std::alloc::Global;

/// How the values of a list are read one after the other, each by what was read before it.
pub(crate) trait ListReader {
    /// What a value says.
    type Item: Drop;

    /// What a value says after those before it.
    ghost reads: { Self → List Self.Item → Data → Result Self.Item Misfit };

    /// How many values there may be.
    ghost most: { Self → ℕ };

    /// Reads the value that stands after those that were read before it.
    fn read_next(
        &self,
        alloc: Global,
        before: &[Self::Item],
        value: &Value,
    ) -> Result<Self::Item, Misfit>
        requires { length before.now < most self.now }
        ensures { Reads (λ a. a) result (reads self.now before.now (view value.now)) };
}

/// Reads the values of a list, one after the other. A misfit is seen from the list.
pub(crate) fn read_each<R: ListReader>(
    alloc: Global,
    reader: &R,
    values: &[Value],
) -> Result<Items<R::Item>, Misfit>
    requires { length values.now ≤ R.most reader.now }
    ensures exact { Reads (λ a. a) result (each (R.reads reader.now) [] (map view values.now)) }
    ensures count { IfOk result (λ items. length items ≡ length values.now) }
{
    let mut items = Items::new(alloc);
    for value in values {
        let read = reader.read_next(alloc, items.as_slice(), value);
        items.push(in_place(alloc, items.len(), read)?)?;
    }
    Ok(items)
}
