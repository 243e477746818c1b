//! An item of a header is `index="name"`.

ghost use Rattle.std.specs.Prelude.{◌≡◌, ◌<◌, ◌≤◌, ◌-◌, Some, None, MatchOption, option_map, length, take, drop};
ghost use Rattle.std.specs.List.{list_all};
ghost use Rattle.text_lines.specs.Text.{is_digit};
ghost use Rattle.label_lines.specs.Header.{Item, quoted, is_name, has_name_bytes, is_label_byte, is_word_byte, item_of, saturated_item};

use crate::kind::{FileKind, LONGEST_NAME};
use text_lines::{split_at_first, whole};

// Returns what is between two quotes.
fn unquoted(bytes: &[u8]) -> Option<&[u8]>
    ensures { MatchOption result (quoted bytes.now ≡ None) (λ r. quoted bytes.now ≡ Some r.now) }
{
    match bytes {
        [b'"', name @ .., b'"'] => Some(name),
        _ => None,
    }
}

fn label_byte(b: u8) -> bool
    ensures { result ≡ is_label_byte b }
{
    matches!(b, b'!'..=b'~') && b != b'"'
}

fn word_byte(b: u8) -> bool
    ensures { result ≡ is_word_byte b }
{
    b.is_ascii_alphanumeric() || b == b'_'
}

fn all_label_bytes(name: &[u8]) -> bool
    ensures { result ≡ list_all is_label_byte name.now }
{
    name.iter().all(|b| label_byte(*b))
}

fn all_word_bytes(name: &[u8]) -> bool
    ensures { result ≡ list_all is_word_byte name.now }
{
    name.iter().all(|b| word_byte(*b))
}

fn name_bytes(kind: FileKind, name: &[u8]) -> bool
    requires { 0 < length name.now }
    ensures { result ≡ has_name_bytes kind name.now }
{
    match kind {
        FileKind::LabelFile => all_label_bytes(name),
        FileKind::OwnerFile => !name[0].is_ascii_digit() && all_word_bytes(name),
    }
}

fn fits_name(kind: FileKind, name: &[u8]) -> bool
    ensures { result ≡ is_name kind name.now }
{
    !name.is_empty() && name.len() <= LONGEST_NAME && name_bytes(kind, name)
}

/// Reads the index and the name of an item.
pub fn read_item(kind: FileKind, field: &[u8]) -> Option<(u64, &[u8])>
    ensures { MatchOption result (item_of kind field.now ≡ None)
        (λ r. option_map saturated_item (item_of kind field.now) ≡ Some (record { index = r.0; name = r.1.now })) }
{
    let Some((digits, rest)) = split_at_first(b'=', field) else {
        return None;
    };
    let Some(index) = whole(digits) else {
        return None;
    };
    let Some(name) = unquoted(rest) else {
        return None;
    };
    if fits_name(kind, name) {
        Some((index, name))
    } else {
        None
    }
}
