//! Names that a dump can hold.

ghost use Rattle.std.specs.Prelude.{◌≡◌};
ghost use Rattle.std.specs.List.{list_all};
ghost use Rattle.std.specs.Str.{bytes_eq};
ghost use Rattle.vcd_read.specs.Words.{is_printable};
ghost use Rattle.vcd_law.specs.Own.{is_plain};

/// Whether a dump can hold the name of a scope or an item: one or more bytes from `!` to `~`, and not `$end`.
pub fn is_plain(name: &[u8]) -> bool
    ensures { result ≡ is_plain name.now }
{
    !name.is_empty() && are_printable(name) && !is_text(name, b"$end")
}

/// Whether all bytes may stand in a word.
fn are_printable(name: &[u8]) -> bool
    ensures { result ≡ list_all is_printable name.now }
{
    name.iter().all(|b| 33 <= *b && *b <= 126)
}

/// Whether the name is this text.
fn is_text(name: &[u8], text: &[u8]) -> bool
    ensures { result ≡ bytes_eq name.now text.now }
{
    name == text
}
