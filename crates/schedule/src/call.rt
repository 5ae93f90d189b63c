// What a hub can be asked, and what it answers.
// A session is one customer's phone at a station, from linking to unlinking; sessions are numbered from 1 on.
// A tick is the feed of one millimetre of paper; clocks, dues and stamps count ticks.

// One of the six calls.
#[derive(Clone, Copy, Debug, PartialEq, Eq)]
pub enum Call {
    // opens a session at a station, with a share of the printer in ten-thousandths
    Link {
        station: u8,
        share: u16,
    },
    // orders copies of a picture in a format
    Order {
        session: u64,
        // any byte, since what is no format's code has to be refused
        format: u8,
        copies: u8,
    },
    // takes the next order, or passes over a blank
    Next,
    // lets ticks pass
    Pass {
        ticks: u64,
    },
    // raises the shift clock to a value
    Shift {
        value: u64,
    },
    // ends a session and erases its waiting orders
    Unlink {
        session: u64,
    },
}

// What an accepted call answers.
#[derive(Clone, Copy, Debug, PartialEq, Eq)]
pub enum Answer {
    // the new session's number
    Linked {
        session: u64,
    },
    // the order's number in its session, from 1, and when its session's private printer would end it
    Accepted {
        number: u64,
        due: u64,
    },
    // the order that is fed now
    HandedOut {
        session: u64,
        number: u64,
        station: u8,
        // the format's code, which is all that a slip or a printer has of it
        format: u8,
        copies: u8,
        len: u16,
        due: u64,
        stamp: u64,
    },
    // a blank was passed over: the station's session was unlinked while orders waited
    PassedOver {
        station: u8,
    },
    // the run clock, and the ticks left to feed
    Passed {
        run: u64,
        left: u16,
    },
    // the shift clock
    Shifted {
        shift: u64,
    },
    // how many waiting orders were erased
    Unlinked {
        erased: u8,
    },
}
