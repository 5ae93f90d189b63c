// Claim codes: published check digits, and the edges of making and reading.
use claim::{CodeRefusal, make, read};
use std::test::Fail;

// Published numbers that end in an ISO/IEC 7812-1 check digit, each with the number before that digit.
const PUBLISHED: [(&str, u64); 15] = [
    ("79927398713", 7992739871),
    ("49927398716", 4992739871),
    ("1234567812345670", 123456781234567),
    ("4111111111111111", 411111111111111),
    ("4012888888881881", 401288888888188),
    ("5555555555554444", 555555555555444),
    ("5105105105105100", 510510510510510),
    ("378282246310005", 37828224631000),
    ("371449635398431", 37144963539843),
    ("6011111111111117", 601111111111111),
    ("6011000990139424", 601100099013942),
    ("30569309025904", 3056930902590),
    ("38520000023237", 3852000002323),
    ("3530111333300000", 353011133330000),
    ("3566002020360505", 356600202036050),
];

#[test]
fn published_codes_are_read(rt: HostRuntime) {
    for (code, number) in PUBLISHED {
        assert_eq!(rt; read(code.as_bytes()), Ok(number), "{}", code);
    }
}

#[test]
fn published_codes_are_made(rt: HostRuntime) -> Result<(), Fail> {
    for (code, number) in PUBLISHED {
        let mut memory = [0u8; 20];
        let len = make(number, &mut memory)?;
        assert_eq!(rt; &memory[0..len], code.as_bytes(), "{}", code);
    }
    Ok(())
}

// Every other digit in the place of the last is refused as a wrong check digit.
#[test]
fn another_last_digit_is_refused(rt: HostRuntime) -> Result<(), Fail> {
    for (code, _) in PUBLISHED {
        for digit in b'0'..=b'9' {
            let mut changed = code.as_bytes().to_vec(rt.alloc())?;
            let right = changed.pop();
            changed.push(digit)?;
            if right != Some(digit) {
                assert_eq!(rt; read(&changed), Err(CodeRefusal::BadCheck), "{}", code);
            }
        }
    }
    Ok(())
}

// Texts that are no code of a session: too short or too long, another byte, a leading 0, a number out of range.
const MALFORMED: [&str; 12] = [
    "",
    "0",
    "5",
    "00",
    "018",
    "1 8",
    "-18",
    "18\n",
    "12x5",
    "11529215046068469773",
    "99999999999999999990",
    "100000000000000000058",
];

#[test]
fn malformed_codes_are_refused(rt: HostRuntime) {
    for code in MALFORMED {
        assert_eq!(rt;
            read(code.as_bytes()),
            Err(CodeRefusal::BadNumber),
            "{}",
            code
        );
    }
}

#[test]
fn the_largest_session_is_made_and_read(rt: HostRuntime) {
    let mut memory = [0u8; 20];
    assert_eq!(rt; make(1 << 60, &mut memory), Ok(20));
    assert_eq!(rt; &memory[0..20], b"11529215046068469765".as_slice());
    assert_eq!(rt; read(&memory), Ok(1 << 60));
    assert_eq!(rt;
        make((1 << 60) + 1, &mut memory),
        Err(CodeRefusal::BadNumber)
    );
    assert_eq!(rt; make(u64::MAX, &mut memory), Err(CodeRefusal::BadNumber));
}

// A refusal leaves the memory as it was; a bad number is refused before the room is looked at.
#[test]
fn short_memory_is_refused_and_kept(rt: HostRuntime) {
    let mut memory = [0xaau8; 19];
    assert_eq!(rt; make(1, &mut memory), Err(CodeRefusal::NoRoom));
    assert_eq!(rt; make(0, &mut memory), Err(CodeRefusal::BadNumber));
    assert_eq!(rt; memory, [0xaau8; 19]);
}

#[test]
fn bytes_behind_the_code_are_kept(rt: HostRuntime) {
    let mut least = [0xaau8; 20];
    assert_eq!(rt; make(12, &mut least), Ok(3));
    assert_eq!(rt; &least[0..3], b"125".as_slice());
    assert_eq!(rt; &least[3..20], [0xaau8; 17].as_slice());
    let mut more = [0xbbu8; 100];
    assert_eq!(rt; make(1 << 60, &mut more), Ok(20));
    assert_eq!(rt; &more[0..20], b"11529215046068469765".as_slice());
    assert_eq!(rt; &more[20..100], [0xbbu8; 80].as_slice());
}

#[test]
fn refusals_have_their_numbers(rt: HostRuntime) {
    assert_eq!(rt; u8::from(CodeRefusal::NoRoom), 7);
    assert_eq!(rt; u8::from(CodeRefusal::BadNumber), 41);
    assert_eq!(rt; u8::from(CodeRefusal::BadCheck), 42);
}
