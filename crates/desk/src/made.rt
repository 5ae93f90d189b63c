// A session with its claim code.
ghost use Rattle.std.specs.Prelude.{◌≡◌, true};
ghost use Rattle.std.specs.Str.{all_ascii_digits};

use arrayvec::ArrayString;
use claim::LONGEST;

// The code is digits, of whatever session: anyone who has two may put the code of one beside the session of the other.
// That it is the session's own is promised where it is made.
#[derive(Clone, Copy)]
pub struct Made {
    pub session: u64,
    pub code: ArrayString<LONGEST>,
    ghost digits: { all_ascii_digits code.bytes ≡ true },
}
