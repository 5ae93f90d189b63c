// Claim codes: a session number in decimal, then its check digit, as ASCII digits.
// A session is one customer's phone at a station, from linking to unlinking; sessions are numbered from 1 on.
// A customer shows the code to collect an envelope; staff make codes and read them back.
#![tactic(auto)]

ghost use Rattle.std.specs.Prelude.{◌≡◌, ◌≤◌, true, length, take, IfOk, if◌then◌else◌, Some, None, Ok, OnOk};
ghost use Rattle.claim.specs.Code.{longest, bytes_in, coded, coding, making, memory, number_in, well_formed, checked, reading};
ghost use Rattle.claim.specs.Laws.{CodeOf, Guarded, WorkedExamples};

mod digits;
mod refusal;

use arrayvec::ArrayString;
use digits::Digits;
pub use digits::value;
use itoa::Buffer;
pub use refusal::CodeRefusal;

// The largest session number that has a code.
pub const LARGEST: u64 = 1 << 60;

// The most digits of a code: those of a session number, at most 19, and the check digit.
pub const LONGEST: usize = 20;

// Whether a session can have the number, and so a code.
fn has_code(number: u64) -> bool
    ensures tells { result ≡ coded number }
{
    (1..=LARGEST).contains(&number)
}

// The number's code, as text.
#[tactic(auto, using(crate::proofs::Making::of_a_code))]
pub fn code(number: u64) -> Result<ArrayString<LONGEST>, CodeRefusal>
    ensures answers_the_code { bytes_in result ≡ coding number }
    ensures at_most_the_longest { IfOk result (λ t. length t.bytes ≤ longest) }
    ensures reads_back { IfOk result (λ t. reading t.bytes ≡ Ok number) }
{
    if !has_code(number) {
        return Err(CodeRefusal::BadNumber);
    }
    let mut buffer = Buffer::new();
    let text = buffer.format(number);
    let digits = Digits {
        text: text.as_bytes(),
    };
    let mut code = ArrayString::new();
    code.push_str(text);
    code.push(char::from(digits.check_digit()));
    Ok(code)
}

// Writes the number's code at the front of `out`, and answers its length.
// Only the code's own bytes are written; a refusal writes nothing. The memory is the caller's, so its length and the code's stay two numbers.
// Room is looked for before the code is made, so that a refusal costs no code.
pub fn make(number: u64, out: &mut [u8]) -> Result<usize, CodeRefusal>
    ensures answers_the_length { result ≡ making number out.old }
    ensures at_most_the_longest { IfOk result (λ k. k ≤ longest) }
    ensures writes_only_the_code { out.new ≡ memory number out.old }
    ensures reads_back { IfOk result (λ k. reading (take k out.new) ≡ Ok number) }
{
    if has_code(number) && out.len() < LONGEST {
        return Err(CodeRefusal::NoRoom);
    }
    let code = code(number)?;
    let len = code.len();
    out[..len].copy_from_slice(code.as_str().as_bytes());
    Ok(len)
}

// The number before the check digit; none unless the text is 2 to 20 digits, the first not 0, and the number in range.
fn number_before(code: &[u8]) -> Option<u64>
    ensures finds { result ≡ (if well_formed code.now then Some (number_in code.now) else None) }
{
    if code.len() > LONGEST {
        return None;
    }
    let [digits @ .., last] = code else {
        return None;
    };
    let number = value(digits)?;
    if digits[0] == b'0' || number > LARGEST || !last.is_ascii_digit() {
        return None;
    }
    Some(number)
}

// Whether a well-formed text ends with the check digit of the number before it: then it is that number's code.
fn ends_with_check_digit(code: &[u8]) -> bool
    requires { well_formed code.now ≡ true }
    ensures tells { result ≡ checked code.now }
    ensures is_the_code { result ≡ true → CodeOf (number_in code.now) code.now }
    ensures guards { result ≡ true → Guarded code.now }
{
    let [front @ .., last] = code else {
        return false;
    };
    *last == Digits { text: front }.check_digit()
}

// The session number of a code.
pub fn read(code: &[u8]) -> Result<u64, CodeRefusal>
    ensures answers_the_number { result ≡ reading code.now }
    ensures accepts_only_codes { IfOk result (λ n. CodeOf n code.now) }
    ensures one_changed_digit_is_refused { OnOk result (Guarded code.now) }
{
    let number = number_before(code).ok_or(CodeRefusal::BadNumber)?;
    if !ends_with_check_digit(code) {
        return Err(CodeRefusal::BadCheck);
    }
    Ok(number)
}

// The worked examples of codes stand, by the definitions that the contracts cite.
pub fn worked_examples_stand()
    ensures worked_examples { WorkedExamples }
{}
