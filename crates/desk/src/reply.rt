// The desk's replies, and how each is shown in words.
ghost use Rattle.std.specs.Prelude.{◌++◌, Some, codes, decimal};
ghost use Rattle.claim.specs.Code.{largest};
ghost use Rattle.desk.specs.Replies.{answered, replied, in_words, refused};

use crate::made::Made;
use crate::request::Misread;
use claim::{CodeRefusal, LARGEST};
use std::fmt;

// What a session number has to be, and what a claim code has to be, in words; the largest session number follows.
const NUMBER_DEMAND: &str = "session numbers go from 1 to";

const CODE_DEMAND: &str =
    "a claim code is 2 to 20 digits, the first not 0, of a session number up to";

// The answer to a request.
#[derive(Clone, Copy)]
pub enum Answer<'a> {
    // the session whose number was typed, with its claim code
    Make {
        typed: &'a str,
        made: Result<Made, CodeRefusal>,
    },
    // the session of the claim code that was typed
    Read {
        typed: &'a str,
        session: Result<u64, CodeRefusal>,
    },
}

// The desk's reply to a line: the line's number, and the answer to what it asks.
#[derive(Clone, Copy)]
pub struct Reply<'a> {
    pub line: u64,
    pub answer: Result<Answer<'a>, Misread>,
}

// A refusal; `demand` says what a number or a code has to be, up to the largest session number.
#[derive(Clone, Copy)]
struct Refused {
    why: CodeRefusal,
    demand: &'static str,
}

// The words that follow what was typed.
impl fmt::Display for Refused {
    ghost output = { λ r. Some (refused r.why (r.demand.now ++ (codes " " ++ decimal largest))) };

    fn fmt<W: fmt::Write>(&self, f: &mut fmt::Formatter<W>) -> fmt::Result {
        let Refused { why, demand } = *self;
        let number = u8::from(why);
        match why {
            CodeRefusal::NoRoom => write!(f, " is refused ({number}): there is no room for it"),
            CodeRefusal::BadNumber => write!(f, " is refused ({number}): {demand} {LARGEST}"),
            CodeRefusal::BadCheck => write!(f, " is refused ({number}): its check digit is wrong"),
        }
    }
}

impl fmt::Display for Answer<'_> {
    ghost output = { λ a. Some (in_words (answered a)) };

    fn fmt<W: fmt::Write>(&self, f: &mut fmt::Formatter<W>) -> fmt::Result {
        match *self {
            Answer::Make {
                made: Ok(Made { session, code }),
                ..
            } => write!(f, "session {session} has claim code {code}"),
            Answer::Make {
                typed,
                made: Err(why),
            } => {
                let refused = Refused {
                    why,
                    demand: NUMBER_DEMAND,
                };
                write!(f, "session {typed}{refused}")
            }
            Answer::Read {
                typed,
                session: Ok(session),
            } => write!(f, "claim code {typed} is session {session}"),
            Answer::Read {
                typed,
                session: Err(why),
            } => {
                let refused = Refused {
                    why,
                    demand: CODE_DEMAND,
                };
                write!(f, "claim code {typed}{refused}")
            }
        }
    }
}

impl fmt::Display for Reply<'_> {
    ghost output = { λ x. Some (in_words (replied x)) };

    fn fmt<W: fmt::Write>(&self, f: &mut fmt::Formatter<W>) -> fmt::Result {
        let line = self.line;
        match &self.answer {
            Ok(answer) => write!(f, "{answer}"),
            Err(why) => write!(f, "line {line} is not understood: {why}"),
        }
    }
}
