//! What a word stands for, by a table of words.
ghost use Rattle.std.specs.Prelude.{◌≡◌, map};
ghost use Rattle.meta_lexer.specs.Lookup.{lookup};

use crate::words::same_word;

/// The value of the first word of a table that is this one, without regard to ASCII case.
#[tactic(auto, unfolding(crate::specs::Lookup::lookup))]
pub fn lookup<T: Copy>(mut table: &[(&[u8], T)], word: &[u8]) -> Option<T>
    ensures { result ≡ lookup (map (λ e. (e.0.now, e.1)) table.entry.now) word.now }
{
    while let [entry, rest @ ..] = table {
        if same_word(word, entry.0) {
            return Some(entry.1);
        }
        table = rest;
    }
    None
}
