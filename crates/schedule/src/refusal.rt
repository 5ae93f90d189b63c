// Why a hub refuses a call.
ghost use Rattle.std.specs.Prelude.{◌≡◌};
ghost use Rattle.schedule.specs.Refusals.{number_of};

// A refusal's number is its discriminant.
#[derive(Clone, Copy, Debug, PartialEq, Eq)]
pub enum Refusal {
    // link: the station is not below the capacity
    NoStation = 10,
    // link: the share is not 50 to 10,000 ten-thousandths
    ShareOutOfRange = 11,
    // link: the station is linked
    AlreadyLinked = 12,
    // link: the station is not free
    NotFree = 13,
    // link: the shares held and this one come to more than the whole printer
    SharesFull = 14,
    // link, order, pass: the hub's life would pass its limit
    LifeOver = 15,
    // order, unlink: no linked session has that number
    NoSession = 20,
    // order: there is no such format
    NoFormat = 21,
    // order: no copies, or longer than an order may be
    BadLength = 22,
    // order: as many orders wait at the station as its ring holds
    RingFull = 23,
    // next: an order is being fed
    Feeding = 30,
    // next, shift: no station waits
    NoneWaits = 31,
    // pass: more ticks than are left to feed
    PastFeed = 32,
    // pass: nothing is being fed, and a station waits
    SomeWaits = 33,
    // shift: the value is below the shift clock or above the earliest ideal start
    OutOfReach = 34,
}

// The number that messages and slips show.
impl From<Refusal> for u8 {
    ghost from_gives = { λ refusal number. number ≡ number_of refusal };

    fn from(refusal: Refusal) -> u8 {
        refusal as u8
    }
}
