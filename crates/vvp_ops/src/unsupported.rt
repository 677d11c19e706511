//! The words of opcodes that are known and not supported.

ghost use Rattle.std.specs.Prelude.{◌≡◌, ◌||◌, map};
ghost use Rattle.vvp_lex.specs.Words.{begins_with_one};
ghost use Rattle.vvp_ops.specs.Unsupported.{contains_text, contains_one, beginnings, parts, is_unsupported};

use vvp_lex::begins_with_one;

/// How such words begin.
pub const BEGINNINGS: [&[u8]; 27] = [
    b"%callf",
    b"%ret",
    b"%alloc",
    b"%free",
    b"%cassign",
    b"%deassign",
    b"%force",
    b"%release",
    b"%evctl",
    b"%event/nb",
    b"%join/",
    b"%wait/",
    b"%disable/",
    b"%assign/vec4/e",
    b"%assign/vec4/a/e",
    b"%assign/vec4/off/e",
    b"%set/",
    b"%cvt",
    b"%new",
    b"%null",
    b"%prop",
    b"%test_nul",
    b"%substitute",
    b"%pow/",
    b"%file_line",
    b"%cmp/we",
    b"%cmp/wne",
];

/// What such words contain.
pub const PARTS: [&[u8]; 6] = [b"/str", b"/real", b"/wr", b"/obj", b"/dar", b"/queue"];

/// Whether the word contains the text.
fn contains(mut word: &[u8], text: &[u8]) -> bool
    ensures { result ≡ contains_text word.entry.now text.now }
{
    while let [_, rest @ ..] = word {
        if word.starts_with(text) {
            return true;
        }
        word = rest;
    }
    false
}

/// Whether the word contains one of the texts.
fn contains_any(word: &[u8], mut texts: &[&[u8]]) -> bool
    ensures { result ≡ contains_one word.now (map (λ text. text.now) texts.entry.now) }
{
    while let [text, rest @ ..] = texts {
        if contains(word, text) {
            return true;
        }
        texts = rest;
    }
    false
}

/// Whether the word begins as one that is not supported.
fn begins_unsupported(word: &[u8]) -> bool
    ensures { result ≡ begins_with_one word.now beginnings }
{
    begins_with_one(word, &BEGINNINGS)
}

/// Whether the word contains what only one that is not supported does.
fn contains_unsupported(word: &[u8]) -> bool
    ensures { result ≡ contains_one word.now parts }
{
    contains_any(word, &PARTS)
}

/// Whether a word that spells no opcode is one that the engine does not have.
#[tactic(auto, unfolding(crate::specs::Unsupported::is_unsupported))]
pub fn unsupported(word: &[u8]) -> bool
    ensures { result ≡ is_unsupported word.now }
{
    begins_unsupported(word) || contains_unsupported(word)
}
