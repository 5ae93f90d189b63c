// The claim-code desk: each line of input asks for a claim code or for the session of one, and gets one line of reply.
#![tactic(auto)]

ghost use Rattle.std.specs.Prelude.{◌≡◌, IfOk};
ghost use Rattle.desk.specs.Requests.{plainly};
ghost use Rattle.desk.specs.Replies.{replied, answered, make_outcome, make_outcome_by, answer_to, reply_to, MadeReadsBack, AnswerReadsBack};
ghost use Rattle.desk.specs.Laws.{FindsEachSession};

mod made;
mod reply;
mod request;
mod words;

use claim::CodeRefusal;
pub use made::Made;
pub use reply::{Answer, Reply};
pub use request::{Misread, Request, understand};

// The session of this number with its claim code.
#[tactic(auto, using(claim::proofs::Reading::digits_of_code))]
fn make(number: u64) -> Result<Made, CodeRefusal>
    ensures makes { make_outcome_by result ≡ make_outcome number }
    ensures reads_back { IfOk result MadeReadsBack }
{
    let code = claim::code(number)?;
    Ok(Made {
        session: number,
        code,
    })
}

// The answer to a request.
fn answer(request: Request<'_>) -> Answer<'_>
    ensures answers { answered result ≡ answer_to (plainly request.entry) }
    ensures reads_back { AnswerReadsBack result }
{
    match request {
        Request::Make { typed, number } => Answer::Make {
            typed,
            made: make(number),
        },
        Request::Read { code } => Answer::Read {
            typed: code,
            session: claim::read(code.as_bytes()),
        },
    }
}

// The reply to a line, the `number`th of the input.
pub fn reply_to(number: u64, line: &[u8]) -> Reply<'_>
    ensures replies { replied result ≡ reply_to number line.now }
    ensures names_the_line { result.line ≡ number }
    ensures reads_back { IfOk result.answer AnswerReadsBack }
{
    Reply {
        line: number,
        answer: understand(line).map(answer),
    }
}

// What `reply_to` answers finds the claim code of every session, and the session of every such code.
pub fn every_session_is_found()
    ensures finds_each_session { FindsEachSession }
{}
