// Decimal digits as ASCII bytes: the number that they write, and their check digit.
ghost use Rattle.std.specs.Prelude.{◌≡◌, ◌+◌, ◌-◌, ◌%◌, ◌^◌, ◌<◌, ◌≤◌, min, true, if◌then◌else◌, Some, None};
ghost use Rattle.std.specs.Option.{option_map};
ghost use Rattle.std.specs.Str.{all_ascii_digits};
ghost use Rattle.claim.specs.Luhn.{doubled, weight, total, check_digit};
ghost use Rattle.claim.specs.Code.{digits_in, value_after, value_up_to};

// A digit doubled, with nine taken off a result above nine.
fn double(d: u8) -> u8
    requires { d < 10 }
    ensures doubles { result ≡ doubled d }
    ensures is_a_digit { result < 10 }
{
    let twice = 2 * d;
    if twice > 9 { twice - 9 } else { twice }
}

// What the digit at place `i` of `len` adds to the sum: from the right, every second digit is doubled, the last one first.
fn weigh(digit: u8, i: usize, len: usize) -> u8
    requires from_nought { 48 ≤ digit }
    requires to_nine { digit ≤ 57 }
    requires inside { i < len }
    ensures weighs { result ≡ weight (len - 1 - i) (digit - 48) }
    ensures is_a_digit { result < 10 }
{
    let d = digit - b'0';
    let to_the_right = len - 1 - i;
    if to_the_right % 2 == 0 { double(d) } else { d }
}

// The last digit of the sum of two digits; a remainder costs more, and a sum is made for each digit that is read.
fn last_digit(sum: u8) -> u8
    requires { sum < 20 }
    ensures is_the_last_digit { result ≡ sum % 10 }
{
    if sum < 10 { sum } else { sum - 10 }
}

// A text in which each byte is a decimal digit.
#[derive(Clone, Copy)]
pub(crate) struct Digits<'a> {
    pub(crate) text: &'a [u8],
    ghost all: { all_ascii_digits text.now ≡ true },
}

impl Digits<'_> {
    // The text as digits; none where it has another byte.
    pub(crate) fn of(text: &[u8]) -> Option<Digits<'_>>
        ensures takes_digits { option_map (λ d. d.text.now) result ≡ (if all_ascii_digits text.now then Some text.now else None) }
    {
        if text.iter().all(|b| b.is_ascii_digit()) {
            Some(Digits { text })
        } else {
            None
        }
    }

    // The last digit of the sum of what the digits add; no more of the sum is kept, so that any number of digits can be summed.
    // By a rule of the project this is a loop over the digit bytes with their places, and parity is counted from the right.
    #[tactic(auto, using(crate::proofs::Numbers::digit_byte))]
    fn luhn_sum(&self) -> u8
        ensures sums { result ≡ total (digits_in self.now.text.now) % 10 }
    {
        let mut sum = 0;
        for (i, digit) in self.text.iter().enumerate() {
            sum = last_digit(sum + weigh(*digit, i, self.text.len()));
        }
        sum
    }

    // The digits' check digit, as a byte: it brings their sum to a multiple of ten.
    pub(crate) fn check_digit(&self) -> u8
        ensures brings_the_sum_to_a_multiple_of_ten { (total (digits_in self.now.text.now) + (result - 48)) % 10 ≡ 0 }
        ensures is_the_check_digit { result ≡ 48 + check_digit (digits_in self.now.text.now) }
    {
        b'0' + (10 - self.luhn_sum()) % 10
    }

    // The number that the digits write, or the largest u64 where that is less.
    fn value(&self) -> u64
        ensures reads { result ≡ min (2 ^ 64 - 1) (value_after 0 (digits_in self.now.text.now)) }
    {
        self.text.iter().fold(0u64, |n, digit| {
            n.saturating_mul(10).saturating_add(u64::from(digit - b'0'))
        })
    }
}

// The number that a text of digits writes, or the largest u64 where that is less;
// none if the text is empty or has a byte that is no digit.
pub fn value(text: &[u8]) -> Option<u64>
    ensures is_the_value { result ≡ value_up_to (2 ^ 64 - 1) text.now }
{
    if text.is_empty() {
        return None;
    }
    Digits::of(text).map(|digits| digits.value())
}
