//! The word `--`, which precedes names of files.

ghost use Rattle.std.specs.Prelude.{◌≡◌, ◌≤◌, length, map};
ghost use Rattle.std.specs.List.{position_or_len};
ghost use Rattle.tsjob_cli.specs.FileMark as spec;

/// Returns the number of words before `--`; all words, if `--` is not among them.
pub(crate) fn mark_place(words: &[&str]) -> usize
    ensures place { result ≡ position_or_len spec.is_mark (map (λ s. s.now) words.now) }
    ensures within { result ≤ length words.now }
{
    for (place, word) in words.iter().enumerate() {
        if *word == "--" {
            return place;
        }
    }
    words.len()
}

/// Returns whether `--` is among words.
pub(crate) fn has_mark(words: &[&str]) -> bool
    ensures { result ≡ spec.has_mark (map (λ s. s.now) words.now) }
{
    mark_place(words) < words.len()
}
