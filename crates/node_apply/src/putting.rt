ghost use Rattle.std.specs.Prelude.{◌≡◌, Ok, IfOk};

use plain_data::OutOfMemory;

/// Puts a value in a place. What stood there is dropped here, once for all types, so that no caller's proof goes through
/// its parts.
pub(crate) fn put<T: Drop>(place: &mut T, value: T)
    ensures { place.new ≡ value }
{
    *place = value;
}

/// Two values, where memory was there for both. Where it wasn't, the other is dropped here, as above.
pub(crate) fn both<A: Drop, B: Drop>(
    a: Result<A, OutOfMemory>,
    b: Result<B, OutOfMemory>,
) -> Result<(A, B), OutOfMemory>
    ensures first { IfOk result (λ made. a ≡ Ok made.0) }
    ensures second { IfOk result (λ made. b ≡ Ok made.1) }
{
    Ok((a?, b?))
}

/// The same of three values.
pub(crate) fn all_three<A: Drop, B: Drop, C: Drop>(
    a: Result<A, OutOfMemory>,
    b: Result<B, OutOfMemory>,
    c: Result<C, OutOfMemory>,
) -> Result<(A, B, C), OutOfMemory>
    ensures first { IfOk result (λ made. a ≡ Ok made.0) }
    ensures second { IfOk result (λ made. b ≡ Ok made.1) }
    ensures third { IfOk result (λ made. c ≡ Ok made.2) }
{
    Ok((a?, b?, c?))
}
