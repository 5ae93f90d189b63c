// A line's words: the runs of bytes between white space (space, tab, line feed, form feed, carriage return).
ghost use Rattle.std.specs.Prelude.{◌≡◌, if◌then◌else◌, Some, None};
ghost use Rattle.std.specs.Option.{option_map};
ghost use Rattle.desk.specs.Words.{first_word, after_word, visible};

use std::str::from_utf8;

// The first word of `text`, which is empty where there is none, and what follows it.
pub(crate) fn split_word(text: &[u8]) -> (&[u8], &[u8])
    ensures word { result.0.now ≡ first_word text.now }
    ensures rest { result.1.now ≡ after_word text.now }
{
    let text = text.trim_ascii_start();
    let end = text.iter().position(|b| b.is_ascii_whitespace());
    text.split_at(end.unwrap_or(text.len()))
}

// A word as text that can be shown as it is; none where it has a byte that is not a visible ASCII character.
pub(crate) fn visible_text(word: &[u8]) -> Option<&str>
    ensures shows_as_it_is { option_map (λ x. x.now) result ≡ (if visible word.now then Some word.now else None) }
{
    if !word.iter().all(|b| b.is_ascii_graphic()) {
        return None;
    }
    from_utf8(word).ok()
}
