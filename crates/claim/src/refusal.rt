// Why a claim code is not made or not read.
ghost use Rattle.std.specs.Prelude.{◌≡◌};
ghost use Rattle.claim.specs.Refusals.{number_of};

// A refusal's number is its discriminant.
#[derive(Clone, Copy, Debug, PartialEq, Eq)]
pub enum CodeRefusal {
    // the memory has not room for the longest code
    NoRoom = 7,
    // no session has that number, or the text is not the digits of such a number and one digit more
    BadNumber = 41,
    // the check digit is not the number's
    BadCheck = 42,
}

// The number that messages and slips show.
impl From<CodeRefusal> for u8 {
    ghost from_gives = { λ why number. number ≡ number_of why };

    fn from(why: CodeRefusal) -> u8 {
        why as u8
    }
}
