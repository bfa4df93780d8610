use crate::told::{plain, told};
use event::event::Event;
use host::host::GuardHost;
use host::limits::Limits;
use host::tallies::Tallies;
use host::telling::tell_all;
use host::variables::Variables;
use std::process::Abort;

/// Outside every binder.
const NONE: Variables = Variables {
    outer: None,
    inner: None,
};

/// What one limit says of an event with one argument, 6, under outer variable 5 and no inner one.
fn limited(rt: &impl Abort, operand: u16, comparison: u16, constant: u16) -> bool {
    let event = Event {
        label: 0,
        count: 1,
        first: 6,
        second: 0,
    };
    let mut limits = Limits::new();
    assert_eq!(rt; told(limits.set(31, operand, comparison, constant)), Ok(()));
    limits.tell(event);
    limits.holds(
        31,
        event,
        Variables {
            outer: Some(5),
            inner: None,
        },
    )
}

#[test]
fn limits_compare_their_operand(rt: HostRuntime) {
    let cases = [
        ((1, 0, 5), false),
        ((1, 0, 6), true),
        ((1, 1, 5), true),
        ((1, 1, 4), false),
        ((1, 2, 5), false),
        ((1, 2, 4), true),
        ((3, 1, 6), true),
        ((3, 0, 6), false),
        ((2, 0, 65535), false),
        ((4, 1, 0), false),
    ];
    for ((operand, comparison, constant), expected) in cases {
        assert_eq!(rt; limited(&rt, operand, comparison, constant), expected);
    }
}

#[test]
fn unset_guards_say_no(rt: HostRuntime) {
    let mut tallies = Tallies::new();
    assert_eq!(rt; told(tallies.set(0, 8, 1)), Ok(()));
    let both = Variables {
        outer: Some(1),
        inner: Some(1),
    };
    for guard in [1, 31, 32, 65535] {
        assert!(rt; !Limits::new().holds(guard, plain(8), both));
        assert!(rt; !tallies.holds(guard, plain(8), NONE));
    }
    assert!(rt; tallies.holds(0, plain(8), NONE));
}

#[test]
fn every_tally_of_the_label_counts(rt: HostRuntime) {
    let mut tallies = Tallies::new();
    assert_eq!(rt; told(tallies.set(0, 8, 2)), Ok(()));
    assert_eq!(rt; told(tallies.set(1, 9, 1)), Ok(()));
    assert_eq!(rt; told(tallies.set(31, 8, 3)), Ok(()));
    tell_all(&mut tallies, &[plain(8), plain(7), plain(8)]);
    assert!(rt; !tallies.holds(0, plain(8), NONE));
    assert!(rt; tallies.holds(1, plain(8), NONE));
    assert!(rt; tallies.holds(31, plain(8), NONE));
    assert_eq!(rt; told(tallies.set(0, 8, 1)), Ok(()));
    assert!(rt;
        tallies.holds(0, plain(8), NONE),
        "set again, nothing is told yet"
    );
    tallies.tell(plain(8));
    assert!(rt; !tallies.holds(31, plain(8), NONE));
}

#[test]
fn tallies_stop_at_65535(rt: HostRuntime) {
    let mut tallies = Tallies::new();
    assert_eq!(rt; told(tallies.set(0, 8, 65535)), Ok(()));
    for _ in 0..65534 {
        tallies.tell(plain(8));
    }
    assert!(rt; tallies.holds(0, plain(8), NONE), "65,534 told");
    tallies.tell(plain(8));
    assert!(rt; !tallies.holds(0, plain(8), NONE), "65,535 told");
    tallies.tell(plain(8));
    tallies.tell(plain(8));
    assert!(rt; !tallies.holds(0, plain(8), NONE), "more than that");
}
