//! Lists of texts that a word is held against, and tables of words, for the crates that read statements.

ghost use Rattle.std.specs.Prelude.{◌≡◌, map};
ghost use Rattle.vvp_lex.specs.Words.{is_one, begins_with_one, looked_up};

/// Whether the word is one of the texts.
pub fn is_one(word: &[u8], mut texts: &[&[u8]]) -> bool
    ensures { result ≡ is_one word.now (map (λ text. text.now) texts.entry.now) }
{
    while let [text, rest @ ..] = texts {
        if word == *text {
            return true;
        }
        texts = rest;
    }
    false
}

/// Whether the word begins with one of the texts.
pub fn begins_with_one(word: &[u8], mut texts: &[&[u8]]) -> bool
    ensures { result ≡ begins_with_one word.now (map (λ text. text.now) texts.entry.now) }
{
    while let [text, rest @ ..] = texts {
        if word.starts_with(text) {
            return true;
        }
        texts = rest;
    }
    false
}

/// What the first row of a table with this word says of it.
pub fn looked_up<R: Copy>(mut table: &[(&'static [u8], R)], word: &[u8]) -> Option<R>
    ensures { result ≡ looked_up (map (λ row. (row.0.now, row.1)) table.entry.now) word.now }
{
    while let [row, rest @ ..] = table {
        if row.0 == word {
            return Some(row.1);
        }
        table = rest;
    }
    None
}
