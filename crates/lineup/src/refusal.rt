// Why a roll does not take a key.
ghost use Rattle.std.specs.Prelude.{◌≡◌};
ghost use Rattle.lineup.specs.Rolls.{number_of};

// A refusal's number is its discriminant.
#[derive(Clone, Copy, Debug, PartialEq, Eq)]
pub enum RollRefusal {
    // the place is not below the capacity
    NoPlace = 40,
}

// The number that messages show.
impl From<RollRefusal> for u8 {
    ghost from_gives = { λ why number. number ≡ number_of why };

    fn from(why: RollRefusal) -> u8 {
        why as u8
    }
}
