ghost use Rattle.std.specs.Prelude.{◌≡◌};

use session_law::Entry;

/// An entry of a batch, as the tests write it: the task of a client's step, and what its client had seen.
pub fn entry(client: u32, step: u32, seen: u32) -> Entry
    ensures { result ≡ record { client = client; step = step; seen = seen } }
{
    Entry { client, step, seen }
}
