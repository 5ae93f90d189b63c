// What a station keeps.

// An order that waits at a station.
#[derive(Clone, Copy, Debug, PartialEq, Eq)]
pub struct Order {
    // the format's code: a station is kept as a row of plain numbers
    pub format: u8,
    pub copies: u8,
    // when its session's private printer, as fast as the session's share, would end it
    pub due: u64,
}

// What a station is doing.
#[derive(Clone, Copy, Debug, PartialEq, Eq)]
pub enum State {
    // never linked
    Empty,
    // a session is open
    Linked,
    // unlinked while orders waited: a blank waits in their place
    Leaving,
    // unlinked, and nothing waits
    Cooling,
}
