//! Lists of calls, where the log has room for all of them, and where it has not.

use crate::drawing::{ANY, ARROW, File, NONE, TWO};
use crate::following::{event, holds, told};
use fault::fault::Fault;
use host::tallies::Tallies;
use law::call::Call;
use roster::ranges::Ranges;
use run::run::Run;

/// From 0 to 1 on 5 with one of the values 1, 2, 3.
const RECORDS: &[&[u16]] = &[TWO, &[ANY, 0, 0], &[ARROW, 0, 0, 1, 5, 0, NONE, 2]];

/// A menu that is short by one place, an event that is refused, one that is taken, and an empty menu.
fn calls() -> [Call; 4] {
    [
        Call::Menu { places: 2 },
        Call::Offer {
            event: event(&[5, 4]),
        },
        Call::Offer {
            event: event(&[5, 3]),
        },
        Call::Menu { places: 1 },
    ]
}

fn ranges() -> Ranges {
    let mut ranges = Ranges::new();
    let _ = ranges.set(0, 1, 3);
    ranges
}

#[test]
fn a_log_tells_each_outcome(rt: HostRuntime) {
    let file = File::of(RECORDS);
    let mut run = Run::new();
    let mut host = Tallies::new();
    let mut answers: [Result<usize, Fault>; 5] = [Ok(99); 5];
    let mut events = [event(&[9]); 4];
    let made = run.rehearse(
        file.bytes(),
        &ranges(),
        128,
        &mut host,
        &calls(),
        &mut answers,
        &mut events,
    );
    assert_eq!(rt; made, Ok((1, 4)));
    assert_eq!(rt; told(answers[0]), Err((18, 2)));
    assert_eq!(rt; told(answers[1]), Err((16, 1)));
    assert_eq!(rt; told(answers[2]), Ok(1));
    assert_eq!(rt; told(answers[3]), Ok(0));
    assert_eq!(rt; told(answers[4]), Ok(99));
    assert_eq!(rt;
        events,
        [event(&[5, 1]), event(&[5, 2]), event(&[9]), event(&[9])]
    );
    assert!(rt; holds(&run, &[&[3, 1]]));
}

#[test]
fn calls_without_room_are_not_made(rt: HostRuntime) {
    // places for answers, and for events
    let cases = [
        (0, 4, 0),
        (1, 4, 1),
        (4, 1, 0),
        (4, 2, 3),
        (4, 3, 4),
        (2, 2, 2),
    ];
    for (room, places, expected) in cases {
        let mut run = Run::new();
        let mut host = Tallies::new();
        let mut answers: [Result<usize, Fault>; 4] = [Ok(99); 4];
        let mut events = [event(&[9]); 4];
        let made = run.rehearse(
            File::of(RECORDS).bytes(),
            &ranges(),
            128,
            &mut host,
            &calls(),
            &mut answers[..room],
            &mut events[..places],
        );
        assert_eq!(rt; made, Ok((1, expected)), "{room} answers, {places} places");
    }
}

#[test]
fn a_refusal_makes_no_call(rt: HostRuntime) {
    let file = File::of(RECORDS);
    let mut run = Run::new();
    let mut host = Tallies::new();
    let mut answers: [Result<usize, Fault>; 4] = [Ok(99); 4];
    let mut events = [event(&[9]); 4];
    let opened = run.rehearse(
        file.bytes(),
        &Ranges::new(),
        128,
        &mut host,
        &calls(),
        &mut answers,
        &mut events,
    );
    assert_eq!(rt;
        opened.map_err(|fault| (fault.number(), fault.place())),
        Err((12, 1))
    );
    let read = run.rehearse(
        &[0],
        &ranges(),
        128,
        &mut host,
        &calls(),
        &mut answers,
        &mut events,
    );
    assert_eq!(rt;
        read.map_err(|fault| (fault.number(), fault.place())),
        Err((2, 0))
    );
    assert!(rt; holds(&run, &[]));
    assert_eq!(rt; told(answers[0]), Ok(99));
    // the calls can be made on such a run
    assert_eq!(rt;
        run.replay(&mut host, &calls(), &mut answers, &mut events),
        4
    );
    assert_eq!(rt; told(answers[0]), Ok(0));
    assert_eq!(rt; told(answers[2]), Err((16, 0)));
}
