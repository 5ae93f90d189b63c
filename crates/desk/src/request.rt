// What a line asks of the desk: `make NUMBER` or `read CODE`.
ghost use Rattle.std.specs.Prelude.{◌≡◌, Some};
ghost use Rattle.desk.specs.Requests.{asked_by, asked, sole_word, reason_of, held_text, numbered};

use crate::words::{split_word, visible_text};
use std::error::Error;
use std::fmt;

// A request, with its second word as it was typed.
#[derive(Clone, Copy)]
pub enum Request<'a> {
    // the claim code of a session number; one beyond u64 counts as the largest u64, which has no code either
    Make { typed: &'a str, number: u64 },
    // the session of a claim code
    Read { code: &'a str },
}

// Why a line is not understood.
#[derive(Clone, Copy, Debug, PartialEq, Eq)]
pub enum Misread {
    Blank,
    UnknownWord,
    NothingFollows,
    TooMuchFollows,
    NotVisible,
    NotANumber,
}

impl Misread {
    // The reason in words, which follow `line N is not understood: `; the Display is made of it, since writing may fail and this text cannot.
    pub fn reason(self) -> &'static str
        ensures in_words { result.now ≡ reason_of self }
    {
        match self {
            Misread::Blank => "it is blank",
            Misread::UnknownWord => "its first word is neither make nor read",
            Misread::NothingFollows => "nothing follows its first word",
            Misread::TooMuchFollows => "more than one word follows its first word",
            Misread::NotVisible => "its second word has a character that is not visible ASCII",
            Misread::NotANumber => "its session number is not written in digits",
        }
    }
}

impl fmt::Display for Misread {
    ghost output = { λ why. Some (reason_of why) };

    fn fmt<W: fmt::Write>(&self, f: &mut fmt::Formatter<W>) -> fmt::Result {
        f.write_str(self.reason())
    }
}

impl Error for Misread {}

// The one word of `text`.
fn sole_word(text: &[u8]) -> Result<&str, Misread>
    ensures takes_the_one_word { held_text result ≡ sole_word text.now }
{
    let (word, rest) = split_word(text);
    let (more, _) = split_word(rest);
    if word.is_empty() {
        return Err(Misread::NothingFollows);
    }
    if !more.is_empty() {
        return Err(Misread::TooMuchFollows);
    }
    visible_text(word).ok_or(Misread::NotVisible)
}

// The request for the claim code of a number.
fn make_request(typed: &str) -> Result<Request<'_>, Misread>
    ensures asks_for_the_number { asked_by result ≡ numbered typed.now }
{
    let number = claim::value(typed.as_bytes()).ok_or(Misread::NotANumber)?;
    Ok(Request::Make { typed, number })
}

// What a line asks.
pub fn understand(line: &[u8]) -> Result<Request<'_>, Misread>
    ensures asks { asked_by result ≡ asked line.now }
{
    let (word, rest) = split_word(line);
    match word {
        b"" => Err(Misread::Blank),
        b"make" => sole_word(rest).and_then(make_request),
        b"read" => sole_word(rest).map(|code| Request::Read { code }),
        _ => Err(Misread::UnknownWord),
    }
}
