// Line-ups at their edges, the same cases for each kind.
use lineup::{Entry, Heap, LineUp, Pair, Roll, RollRefusal, Table, clear, front_with_key};
use std::process::Abort;

// A pair of a table and a heap, 64 places, and one of two heaps, 64 of their 96.
type Hall = Pair<Table, Heap>;

type Heaps = Pair<Heap, Heap>;

fn hall() -> Hall {
    Pair::new(Table::new(), Heap::new())
}

fn heaps() -> Heaps {
    Pair::new(Heap::new(), Heap::new())
}

// Tries a case on a line-up of each kind, none of which has a key.
macro_rules! of_each_kind {
    ($rt:expr, $case:ident) => {
        $case($rt, "table", &mut Table::new());
        $case($rt, "heap", &mut Heap::new());
        $case($rt, "table and heap", &mut hall());
        $case($rt, "two heaps", &mut heaps());
    };
}

// Among equal keys the lowest place is in front, in whatever sequence they were put.
fn lowest_of_equals<L: LineUp>(rt: &impl Abort, kind: &str, line: &mut L) {
    for place in [9, 3, 15, 7, 12] {
        assert_eq!(rt; line.put(place, 5), Ok(()), "{kind}");
    }
    for place in [3, 7, 9, 12, 15] {
        assert_eq!(rt; line.front(), Some(place), "{kind}");
        assert_eq!(rt; line.take_out(place), Some(5), "{kind}");
    }
    assert_eq!(rt; line.front(), None, "{kind}");
}

#[test]
fn the_lowest_of_equals_is_in_front(rt: HostRuntime) {
    of_each_kind!(&rt, lowest_of_equals);
}

// Key 0 and the largest key are keys like any other.
fn least_and_largest_key<L: LineUp>(rt: &impl Abort, kind: &str, line: &mut L) {
    assert_eq!(rt; line.put(4, u64::MAX), Ok(()), "{kind}");
    assert_eq!(rt; line.front(), Some(4), "{kind}");
    assert_eq!(rt; line.put(6, u64::MAX - 1), Ok(()), "{kind}");
    assert_eq!(rt; line.front(), Some(6), "{kind}");
    assert_eq!(rt; line.put(15, 0), Ok(()), "{kind}");
    assert_eq!(rt; line.front(), Some(15), "{kind}");
    assert_eq!(rt; line.key_of(15), Some(0), "{kind}");
    assert_eq!(rt; line.key_of(4), Some(u64::MAX), "{kind}");
    assert_eq!(rt; line.take_out(15), Some(0), "{kind}");
    assert_eq!(rt; line.front(), Some(6), "{kind}");
}

#[test]
fn least_and_largest_keys_are_kept(rt: HostRuntime) {
    of_each_kind!(&rt, least_and_largest_key);
}

// A place with a key gets another, less or more, and moves to the front or away from it.
fn replaced_keys<L: LineUp>(rt: &impl Abort, kind: &str, line: &mut L) {
    for place in 0..16 {
        assert_eq!(rt; line.put(place, 100 + place as u64), Ok(()), "{kind}");
    }
    assert_eq!(rt; line.put(13, 50), Ok(()), "{kind}");
    assert_eq!(rt; line.front(), Some(13), "{kind}");
    assert_eq!(rt; line.put(13, 500), Ok(()), "{kind}");
    assert_eq!(rt; line.front(), Some(0), "{kind}");
    assert_eq!(rt; line.put(0, 115), Ok(()), "{kind}");
    assert_eq!(rt; line.front(), Some(1), "{kind}");
    assert_eq!(rt; line.put(15, 101), Ok(()), "{kind}");
    assert_eq!(rt; line.front(), Some(1), "{kind}");
    assert_eq!(rt; line.key_of(15), Some(101), "{kind}");
    assert_eq!(rt; line.key_of(13), Some(500), "{kind}");
}

#[test]
fn a_newer_key_replaces_an_older(rt: HostRuntime) {
    of_each_kind!(&rt, replaced_keys);
}

// All places are filled, every third is taken out from wherever it stands, and the rest comes out by key and then place.
fn drained<L: LineUp>(rt: &impl Abort, kind: &str, line: &mut L) {
    let end = line.capacity();
    for place in 0..end {
        assert_eq!(rt; line.put(place, (place as u64 * 29) % 17), Ok(()), "{kind}");
    }
    for place in 0..end {
        if place % 3 == 1 {
            assert_eq!(rt;
                line.take_out(place),
                Some((place as u64 * 29) % 17),
                "{kind}"
            );
        }
    }
    for key in 0..17 {
        for place in 0..end {
            if place % 3 != 1 && (place as u64 * 29) % 17 == key {
                assert_eq!(rt; line.front(), Some(place), "{kind}");
                assert_eq!(rt; line.take_out(place), Some(key), "{kind}");
            }
        }
    }
    assert_eq!(rt; line.front(), None, "{kind}");
}

#[test]
fn what_is_left_comes_out_in_sequence(rt: HostRuntime) {
    of_each_kind!(&rt, drained);
}

// Places past the capacity, near and far: put is refused, and nothing changes.
fn out_of_range<L: LineUp>(rt: &impl Abort, kind: &str, line: &mut L) {
    let end = line.capacity();
    assert_eq!(rt; line.put(end - 1, 7), Ok(()), "{kind}");
    for place in [
        end,
        end + 1,
        64,
        65,
        96,
        1 << 32,
        usize::MAX - 1,
        usize::MAX,
    ] {
        assert_eq!(rt; line.put(place, 1), Err(RollRefusal::NoPlace), "{kind}");
        assert_eq!(rt; line.key_of(place), None, "{kind}");
        assert_eq!(rt; line.take_out(place), None, "{kind}");
        assert_eq!(rt; line.front(), Some(end - 1), "{kind}");
        assert_eq!(rt; line.capacity(), end, "{kind}");
    }
    assert_eq!(rt; line.key_of(end - 1), Some(7), "{kind}");
}

#[test]
fn places_out_of_range_are_refused(rt: HostRuntime) {
    of_each_kind!(&rt, out_of_range);
}

#[test]
fn capacities(rt: HostRuntime) {
    assert_eq!(rt; Table::new().capacity(), 16);
    assert_eq!(rt; Heap::new().capacity(), 48);
    assert_eq!(rt; Pair::new(Table::new(), Table::new()).capacity(), 32);
    assert_eq!(rt; hall().capacity(), 64);
    assert_eq!(rt; heaps().capacity(), 64);
    assert_eq!(rt; Pair::new(heaps(), Table::new()).capacity(), 64);
}

// Of a second heap behind 48 places, places 0 to 15 are the pair's. What it holds at the others does not count.
#[test]
fn keys_beyond_the_pair_are_none_of_its(rt: HostRuntime) {
    let mut second = Heap::new();
    assert_eq!(rt; second.put(16, 1), Ok(()));
    assert_eq!(rt; second.put(47, 0), Ok(()));
    let mut pair = Pair::new(Heap::new(), second);
    assert_eq!(rt; pair.front(), None);
    assert_eq!(rt; pair.key_of(64), None);
    assert_eq!(rt; pair.take_out(95), None);
    assert_eq!(rt; pair.put(63, 9), Ok(()));
    assert_eq!(rt; pair.front(), Some(63));
    assert_eq!(rt; pair.put(47, 9), Ok(()));
    assert_eq!(rt; pair.front(), Some(47));
    clear(&mut pair);
    assert_eq!(rt; pair.front(), None);
}

// `empty` takes out what either held, `new` keeps it.
#[test]
fn a_pair_made_empty_and_one_made_as_it_is(rt: HostRuntime) {
    let mut kept = Table::new();
    assert_eq!(rt; kept.put(2, 8), Ok(()));
    assert_eq!(rt; Pair::new(Heap::new(), kept).front(), Some(50));
    let mut first = Table::new();
    assert_eq!(rt; first.put(2, 8), Ok(()));
    let mut second = Heap::new();
    assert_eq!(rt; second.put(40, 3), Ok(()));
    let pair = Pair::empty(first, second);
    assert_eq!(rt; pair.front(), None);
    assert_eq!(rt; pair.key_of(2), None);
    assert_eq!(rt; pair.key_of(56), None);
}

#[test]
fn the_front_with_its_key(rt: HostRuntime) {
    let mut line = hall();
    assert_eq!(rt; front_with_key(&line), None);
    assert_eq!(rt; line.put(40, 6), Ok(()));
    assert_eq!(rt; line.put(3, 6), Ok(()));
    assert_eq!(rt; front_with_key(&line), Some(Entry { place: 3, key: 6 }));
}

#[test]
fn the_refusal_has_its_number(rt: HostRuntime) {
    assert_eq!(rt; u8::from(RollRefusal::NoPlace), 40);
}
