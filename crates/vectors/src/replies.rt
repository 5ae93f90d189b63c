// The desk's replies, put together by a caller and shown.
use desk::{Answer, Made, Reply, reply_to};
use std::test::Fail;

// A session and a code that were not answered together may be shown together.
#[test]
fn replies_of_ones_own_are_shown(rt: HostRuntime) -> Result<(), Fail> {
    let Ok(
        Answer::Make {
            made: Ok(other),
            ..
        },
    ) = reply_to(1, b"make 7").answer
    else {
        return Err(Fail::new("session 7 has no code"));
    };
    let made = Made {
        session: 12,
        code: other.code,
    };
    let reply = Reply {
        line: 1,
        answer: Ok(Answer::Make {
            typed: "012",
            made: Ok(made),
        }),
    };
    let shown = format!(in rt.alloc(); "{reply}")?;
    assert_eq!(rt; shown.as_str(), "session 12 has claim code 75");
    Ok(())
}
