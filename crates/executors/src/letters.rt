ghost use Rattle.std.specs.Prelude.{◌≡◌};
ghost use Rattle.executors.specs.Letters.{begins_well, is_letter_or_digit};

/// Whether a byte is a letter from `a` to `z` or a digit.
pub fn is_alphanumeric(byte: u8) -> bool
    ensures { result ≡ is_letter_or_digit byte }
{
    matches!(byte, b'a'..=b'z' | b'0'..=b'9')
}

/// Whether bytes begin with a letter from `a` to `z` or a digit, as keys and names do.
pub fn does_begin_well(bytes: &[u8]) -> bool
    ensures { result ≡ begins_well bytes.now }
{
    match bytes.first() {
        None => false,
        Some(first) => is_alphanumeric(*first),
    }
}
