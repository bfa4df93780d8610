use crate::told::{Told, told};
use event::event::Event;
use host::limits::Limits;
use host::tallies::Tallies;
use roster::ranges::Ranges;
use roster::roster::Roster;

#[test]
fn events_in_form(rt: HostRuntime) {
    let cases: [((u16, u16, u16, u16), Told); 11] = [
        ((255, 0, 0, 0), Ok(())),
        ((0, 1, 65535, 0), Ok(())),
        ((0, 2, 65535, 65535), Ok(())),
        ((256, 0, 0, 0), Err((15, 3, 0))),
        ((256, 3, 1, 1), Err((15, 3, 0))),
        ((0, 3, 0, 0), Err((15, 3, 1))),
        ((0, 3, 1, 1), Err((15, 3, 1))),
        ((0, 0, 1, 0), Err((15, 3, 2))),
        ((0, 0, 1, 1), Err((15, 3, 2))),
        ((0, 0, 0, 1), Err((15, 3, 3))),
        ((0, 1, 1, 1), Err((15, 3, 3))),
    ];
    for ((label, count, first, second), expected) in cases {
        let event = Event {
            label,
            count,
            first,
            second,
        };
        assert_eq!(rt; told(event.in_form()), expected);
    }
}

#[test]
fn ranges_at_their_bounds(rt: HostRuntime) {
    let cases: [((u16, u16, u16), Told); 10] = [
        ((7, 0, 16), Ok(())),
        ((0, 65520, 16), Ok(())),
        ((0, 65535, 1), Ok(())),
        ((0, 65535, 0), Ok(())),
        ((8, 0, 0), Err((19, 4, 0))),
        ((8, 0, 17), Err((19, 4, 0))),
        ((0, 0, 17), Err((19, 4, 2))),
        ((0, 65521, 16), Err((19, 4, 2))),
        ((0, 65535, 2), Err((19, 4, 2))),
        ((0, 65535, 65535), Err((19, 4, 2))),
    ];
    for ((ty, first, count), expected) in cases {
        assert_eq!(rt; told(Ranges::new().set(ty, first, count)), expected);
    }
}

#[test]
fn what_was_set_is_told(rt: HostRuntime) {
    let mut ranges = Ranges::new();
    assert_eq!(rt; ranges.count(3), None);
    assert_eq!(rt; ranges.value(3, 1), None);
    assert_eq!(rt; told(ranges.set(3, 65520, 16)), Ok(()));
    assert_eq!(rt; told(ranges.set(4, 9, 0)), Ok(()));
    assert_eq!(rt; told(ranges.set(3, 65521, 16)), Err((19, 4, 2)));
    assert_eq!(rt; ranges.count(3), Some(16));
    assert_eq!(rt; ranges.value(3, 0), None);
    assert_eq!(rt; ranges.value(3, 1), Some(65520));
    assert_eq!(rt; ranges.value(3, 16), Some(65535));
    assert_eq!(rt; ranges.value(3, 17), None);
    assert_eq!(rt; ranges.count(4), Some(0), "known, and empty");
    assert_eq!(rt; ranges.value(4, 1), None);
    assert_eq!(rt; ranges.count(2), None);
    assert_eq!(rt; ranges.count(65535), None);
}

#[test]
fn limits_at_their_bounds(rt: HostRuntime) {
    let cases: [((u16, u16, u16), Told); 8] = [
        ((31, 1, 0), Ok(())),
        ((0, 4, 2), Ok(())),
        ((32, 0, 3), Err((19, 4, 0))),
        ((0, 0, 3), Err((19, 4, 1))),
        ((0, 5, 0), Err((19, 4, 1))),
        ((0, 1, 3), Err((19, 4, 2))),
        ((65535, 1, 0), Err((19, 4, 0))),
        ((0, 1, 65535), Err((19, 4, 2))),
    ];
    for ((guard, operand, comparison), expected) in cases {
        assert_eq!(rt;
            told(Limits::new().set(guard, operand, comparison, 65535)),
            expected
        );
    }
}

#[test]
fn tallies_at_their_bounds(rt: HostRuntime) {
    let cases: [((u16, u16), Told); 4] = [
        ((31, 255), Ok(())),
        ((32, 256), Err((19, 4, 0))),
        ((0, 256), Err((19, 4, 1))),
        ((65535, 0), Err((19, 4, 0))),
    ];
    for ((guard, label), expected) in cases {
        assert_eq!(rt; told(Tallies::new().set(guard, label, 65535)), expected);
    }
}
