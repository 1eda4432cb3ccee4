// A name where it stands alone.
ghost use Rattle.std.specs.Prelude.{◌≡◌, ◌<◌, ◌≤◌, ℕ, true, false, length, IfSome, IfNone};
ghost use Rattle.process_tree.specs.Name.{is_name_byte};
ghost use Rattle.refusal_hints.specs.Pointing.{IsFirstAlone};
ghost use Rattle.refusal_hints.specs.Words.{is_name_byte_at, stands_alone};

// A byte that names have.
fn is_name_byte(byte: u8) -> bool
    ensures { result ≡ is_name_byte byte }
{
    byte.is_ascii_lowercase() || byte.is_ascii_digit() || byte == b'_'
}

/// There is a byte at this place, and names have it.
pub(crate) fn is_name_byte_at(text: &[u8], n: usize) -> bool
    ensures { result ≡ is_name_byte_at text.now n }
{
    match text.get(n) {
        Some(byte) => is_name_byte(*byte),
        None => false,
    }
}

// The name stands at this place, and neither in front of it nor behind it is a byte of a longer one.
fn stands_alone(text: &[u8], name: &[u8], n: usize) -> bool
    requires { n ≤ length text.now }
    ensures { result ≡ stands_alone text.now name.now n }
{
    text[n..].starts_with(name)
        && !(n > 0 && is_name_byte_at(text, n - 1))
        && !is_name_byte_at(text, n + name.len())
}

/// Where the name stands alone first.
pub(crate) fn first_alone(text: &[u8], name: &[u8]) -> Option<usize>
    ensures { IsFirstAlone text.now name.now result }
{
    for n in 0..text.len() {
        if stands_alone(text, name, n) {
            return Some(n);
        }
    }
    None
}
