//! The words of statements that are known and not supported.

ghost use Rattle.std.specs.Prelude.{◌≡◌, ◌||◌};
ghost use Rattle.vvp_forms.specs.Unsupported.{words, beginnings, is_unsupported};
ghost use Rattle.vvp_lex.specs.Words.{is_one, begins_with_one};

use vvp_lex::{begins_with_one, is_one};

/// Such words.
pub const WORDS: [&[u8]; 10] = [
    b".var/real",
    b".var/str",
    b".var/2s",
    b".var/2u",
    b".net/real",
    b".array/real",
    b".array/str",
    b".array/2s",
    b".array/2u",
    b".array/port",
];

/// How further such words begin.
pub const BEGINNINGS: [&[u8]; 16] = [
    b".udp",
    b".dff",
    b".latch",
    b".ufunc",
    b".modpath",
    b".island",
    b".import",
    b".export",
    b".port",
    b".tran",
    b".cast",
    b".class",
    b".sfunc",
    b".substitute",
    b".abs",
    b".alias",
];

/// Whether the word is listed whole.
fn is_listed(word: &[u8]) -> bool
    ensures { result ≡ is_one word.now words }
{
    is_one(word, &WORDS)
}

/// Whether the word begins as one that is not supported.
fn begins_unsupported(word: &[u8]) -> bool
    ensures { result ≡ begins_with_one word.now beginnings }
{
    begins_with_one(word, &BEGINNINGS)
}

/// Whether a word that spells no statement is one that the engine does not have.
#[tactic(auto, unfolding(crate::specs::Unsupported::is_unsupported))]
pub fn unsupported(word: &[u8]) -> bool
    ensures { result ≡ is_unsupported word.now }
{
    is_listed(word) || begins_unsupported(word)
}
