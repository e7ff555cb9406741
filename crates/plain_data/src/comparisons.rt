ghost use Rattle.std.specs.Prelude.{◌≡◌, ◌↔◌, IsTrue};
ghost use Rattle.plain_data.specs.Agreements.{AgreeOutside};
ghost use Rattle.plain_data.specs.Pairs.{lookup, pairs_eq};

use crate::laws::Exact;
use crate::maps::Map;
use crate::sets::NameSet;
use crate::texts::Text;

/// Whether two maps that agree outside of some names are equal, which costs a look-up in each at each of these names.
pub fn is_same_among<V: Exact>(a: &Map<V>, b: &Map<V>, names: &NameSet) -> bool
    requires { AgreeOutside names.now a.now b.now }
    ensures { result ≡ pairs_eq V.eq a.now b.now }
{
    // The keys of both stand in order, so that maps with the same look-ups are equal.
    let _ = (a.len(), b.len());
    for name in names.iter() {
        if !is_same_at(a, b, name) {
            return false;
        }
    }
    true
}

// Whether two maps have the same value at a key, or both have none.
fn is_same_at<V: Exact>(a: &Map<V>, b: &Map<V>, key: &Text) -> bool
    ensures { IsTrue result ↔ (lookup key.now a.now ≡ lookup key.now b.now) }
{
    match (a.get(key), b.get(key)) {
        (None, None) => true,
        (Some(one), Some(other)) => one == other,
        _ => false,
    }
}
