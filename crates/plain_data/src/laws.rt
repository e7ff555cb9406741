ghost use Rattle.std.specs.Prelude.{◌≡◌, ◌↔◌, IsTrue};
ghost use Rattle.std.specs.Bool.{Decides};
ghost use Rattle.std.specs.Cmp.{booleans_Decides, unsigned_Decides};
ghost use Rattle.std.specs.Cmp.Lexicographic.{bytes_decides, pointwise_decides};
ghost use Rattle.plain_data.specs.Pairs.{pairs_decides, unit_decides};

use crate::lists::Items;
use crate::maps::Map;
use crate::sets::NameSet;
use crate::texts::Text;

/// The law that `==` decides equality: it answers true exactly at equal values.
pub trait Exact: Eq {
    ghost exact: { (a b : Self) → Decides (Self.eq a b) (a ≡ b) };
}

/// Whether two values are equal.
pub fn is_same<T: Exact>(a: &T, b: &T) -> bool
    ensures { IsTrue result ↔ (a.now ≡ b.now) }
{
    a == b
}

impl Exact for () {
    ghost exact = { unit_decides };
}

impl Exact for bool {
    ghost exact = { booleans_Decides };
}

impl Exact for u64 {
    ghost exact = { unsigned_Decides };
}

impl Exact for Text {
    ghost exact = { bytes_decides };
}

impl<T: Exact> Exact for Items<T> {
    ghost exact = { pointwise_decides T.exact };
}

impl<V: Exact> Exact for Map<V> {
    ghost exact = { pairs_decides V.exact };
}

impl Exact for NameSet {
    ghost exact = { pairs_decides unit_decides };
}
