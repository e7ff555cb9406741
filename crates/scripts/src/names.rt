ghost use Rattle.std.specs.Prelude.{◌≡◌};
ghost use Rattle.std.specs.List.{list_all};
ghost use Rattle.scripts.specs.Names.{is_name, is_name_byte};

use executors::{does_begin_well, is_alphanumeric};

/// Whether it is a name that a cluster, a node or a queue may have: 1 to 64 bytes of `a` to `z`, `0` to `9`, `_` and
/// `-` that begin with a letter or a digit.
pub fn is_a_name(text: &str) -> bool
    ensures { result ≡ is_name text.now }
{
    let bytes = text.as_bytes();
    does_begin_well(bytes) && bytes.len() <= 64 && has_bytes_of_names(bytes)
}

fn has_bytes_of_names(bytes: &[u8]) -> bool
    ensures { result ≡ list_all is_name_byte bytes.now }
{
    bytes.iter().all(|byte| is_byte_of_names(*byte))
}

fn is_byte_of_names(byte: u8) -> bool
    ensures { result ≡ is_name_byte byte }
{
    is_alphanumeric(byte) || byte == b'_' || byte == b'-'
}
