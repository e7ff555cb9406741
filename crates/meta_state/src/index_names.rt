ghost use Rattle.std.specs.Prelude.{◌≡◌, Some, None, MatchResult, length};
ghost use Rattle.std.specs.List.{list_any};
ghost use Rattle.meta_state.specs.Names.{name_fault, begins_badly, is_forbidden, is_upper, is_outside};

use thiserror::Error;

/// A name that an index may not have.
#[derive(Clone, Copy, Debug, PartialEq, Eq, Error)]
#[error("the name breaks rule {rule} of index names")]
pub struct InvalidName {
    /// The first rule that it breaks, by its number from 1 to 7 (see `check_index_name`).
    pub rule: u8,
}

/// Whether an index or an alias may have this name, by Elasticsearch's rules (its
/// `MetadataCreateIndexService`), in this order: 1 it isn't empty; 2 it has at most 255 bytes; 3 it is neither `.`
/// nor `..`; 4 it doesn't begin with `_`, `-` or `+`; 5 it contains none of `\ / * ? " < > | , # :` and no space;
/// 6 it contains no letter from `A` to `Z`; 7 it contains no byte outside 0x21 to 0x7E, which is this project's own
/// rule.
pub fn check_index_name(name: &str) -> Result<(), InvalidName>
    ensures { MatchResult result (λ _. name_fault name.now ≡ None) (λ e. name_fault name.now ≡ Some e.rule) }
{
    let bytes = name.as_bytes();
    if bytes.is_empty() {
        Err(InvalidName { rule: 1 })
    } else if bytes.len() > 255 {
        Err(InvalidName { rule: 2 })
    } else if name == "." || name == ".." {
        Err(InvalidName { rule: 3 })
    } else if does_begin_badly(bytes) {
        Err(InvalidName { rule: 4 })
    } else if has_forbidden(bytes) {
        Err(InvalidName { rule: 5 })
    } else if has_upper(bytes) {
        Err(InvalidName { rule: 6 })
    } else if has_outside(bytes) {
        Err(InvalidName { rule: 7 })
    } else {
        Ok(())
    }
}

fn does_begin_badly(bytes: &[u8]) -> bool
    ensures { result ≡ begins_badly bytes.now }
{
    match bytes.first() {
        None => false,
        Some(first) => *first == b'_' || *first == b'-' || *first == b'+',
    }
}

fn is_forbidden_byte(byte: u8) -> bool
    ensures { result ≡ is_forbidden byte }
{
    matches!(
        byte,
        b'\\' | b'/' | b'*' | b'?' | b'"' | b'<' | b'>' | b'|' | b',' | b'#' | b':' | b' '
    )
}

fn has_forbidden(bytes: &[u8]) -> bool
    ensures { result ≡ list_any is_forbidden bytes.now }
{
    bytes.iter().any(|byte| is_forbidden_byte(*byte))
}

fn has_upper(bytes: &[u8]) -> bool
    ensures { result ≡ list_any is_upper bytes.now }
{
    bytes.iter().any(|byte| b'A' <= *byte && *byte <= b'Z')
}

fn has_outside(bytes: &[u8]) -> bool
    ensures { result ≡ list_any is_outside bytes.now }
{
    bytes.iter().any(|byte| *byte < 0x21 || 0x7E < *byte)
}
