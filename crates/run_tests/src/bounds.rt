//! Calls at both sides of every bound.

use crate::drawing::{
    ALL, ANY, ARROW, AUTOMATON, CHOICE, CLOSURE, File, NONE, SYNCHRONISATION, TWO,
};
use crate::following::{Drawing, event, holds, shows, told};
use event::event::Event;
use host::limits::Limits;
use procedure::procedure::Procedure;
use roster::ranges::Ranges;
use run::run::Run;

#[test]
fn a_run_that_was_never_opened(rt: HostRuntime) {
    let mut host = Limits::new();
    let mut run = Run::new();
    assert!(rt; holds(&run, &[]) && !run.is_finished());
    assert!(rt; shows(&run, &host, &[]));
    assert_eq!(rt; run.menu(&host, &mut []), Ok(0));
    assert_eq!(rt; told(run.offer(&mut host, event(&[5]))), Err((16, 0)));
    assert_eq!(rt; told(run.offer(&mut host, event(&[256]))), Err((15, 0)));
}

/// From 0 to 1 on 5 with the outer value.
const ONE_STEP: Drawing = Drawing {
    records: &[TWO, &[ANY, 0, 0], &[ARROW, 0, 0, 1, 5, 0, NONE, 2]],
    first: 1,
    count: 3,
};

#[test]
fn openings_in_order(rt: HostRuntime) {
    let mut run = Run::new();
    let nothing = Procedure::new();
    assert_eq!(rt; told(run.open(&nothing, &Ranges::new(), 0)), Err((11, 0)));
    // a type without a value, and one of sixteen
    let cases = [(0, Err((12, 1))), (1, Ok(1)), (16, Ok(1))];
    for (count, expected) in cases {
        let drawing = Drawing { count, ..ONE_STEP };
        assert_eq!(rt; drawing.open(&rt, &mut run, 128), expected);
    }
    // ceilings
    let cases = [
        (0, Err((14, 0))),
        (1, Ok(1)),
        (128, Ok(1)),
        (129, Err((14, 129))),
    ];
    for (ceiling, expected) in cases {
        assert_eq!(rt; ONE_STEP.open(&rt, &mut run, ceiling), expected);
    }
    // refused openings leave the run as it was
    let mut host = Limits::new();
    assert_eq!(rt; told(run.offer(&mut host, event(&[5, 2]))), Ok(1));
    assert_eq!(rt; ONE_STEP.open(&rt, &mut run, 129), Err((14, 129)));
    assert!(rt; holds(&run, &[&[2, 1]]));
}

#[test]
fn an_unknown_type_and_the_wide_node_behind_it(rt: HostRuntime) {
    let file = File::of(ONE_STEP.records);
    let mut procedure = Procedure::new();
    let read = procedure.read(file.bytes());
    assert!(rt; read.is_ok());
    let mut run = Run::new();
    assert_eq!(rt;
        told(run.open(&procedure, &Ranges::new(), 129)),
        Err((12, 1))
    );
}

/// An automaton, closures around it, and 16 instances of them: 3 cells each.
const WIDE: &[&[u16]] = &[
    &[AUTOMATON, 1, 0, 0, NONE],
    &[CLOSURE, 0],
    &[CLOSURE, 1],
    &[ALL, 0, 2, 0],
    &[ARROW, 0, 0, 0, 5, 0, NONE, 2],
];

#[test]
fn widths_up_to_48(rt: HostRuntime) {
    let wide = Drawing {
        records: WIDE,
        first: 1,
        count: 16,
    };
    let mut host = Limits::new();
    let mut run = wide.run(&rt);
    assert_eq!(rt; run.width(), 48);
    assert_eq!(rt; told(run.offer(&mut host, event(&[5, 16]))), Ok(1));
    // the last instance has started
    assert_eq!(rt; run.cell(0, 44), Some(0));
    assert_eq!(rt; run.cell(0, 45), Some(1));
    assert_eq!(rt; run.cell(0, 46), Some(1));
    assert_eq!(rt; run.cell(0, 47), Some(0));
    assert_eq!(rt; run.cell(0, 48), None);
}

#[test]
fn a_width_of_49(rt: HostRuntime) {
    let wider = Drawing {
        records: &[WIDE[0], WIDE[1], WIDE[2], WIDE[3], &[CLOSURE, 3]],
        first: 1,
        count: 16,
    };
    let mut run = Run::new();
    // 13 comes before 14
    assert_eq!(rt; wider.open(&rt, &mut run, 0), Err((13, 4)));
}

/// Seven choices that all move on 7, each in two ways.
const SEVEN: Drawing = Drawing {
    records: &[
        TWO,
        TWO,
        &[CHOICE, 0, 1],
        &[ALL, 0, 2, 1, 7],
        &[ARROW, 0, 0, 1, 7],
        &[ARROW, 1, 0, 1, 7],
    ],
    first: 1,
    count: 7,
};

#[test]
fn as_many_states_as_the_ceiling(rt: HostRuntime) {
    let mut host = Limits::new();
    let mut run = SEVEN.run(&rt);
    assert_eq!(rt; told(run.offer(&mut host, event(&[7]))), Ok(128));
    assert_eq!(rt; run.len(), 128);
    assert_eq!(rt; told(run.offer(&mut host, event(&[7]))), Err((16, 128)));
    assert_eq!(rt; SEVEN.open(&rt, &mut run, 127), Ok(1));
    assert_eq!(rt; told(run.offer(&mut host, event(&[7]))), Err((17, 127)));
    assert_eq!(rt; run.len(), 1);
}

#[test]
fn events_out_of_form(rt: HostRuntime) {
    let mut host = Limits::new();
    let mut run = ONE_STEP.run(&rt);
    let cases = [
        ((256, 0, 0, 0), 0),
        ((5, 3, 0, 0), 1),
        ((5, 0, 1, 0), 2),
        ((5, 0, 0, 1), 3),
        ((5, 1, 1, 1), 3),
        ((256, 3, 1, 1), 0),
    ];
    for ((label, count, first, second), place) in cases {
        let event = Event {
            label,
            count,
            first,
            second,
        };
        assert_eq!(rt; told(run.offer(&mut host, event)), Err((15, place)));
    }
    assert!(rt; holds(&run, &[&[0, 0]]));
}

#[test]
fn a_menu_with_too_few_places(rt: HostRuntime) {
    let host = Limits::new();
    let run = ONE_STEP.run(&rt);
    let mut two = [event(&[9]); 2];
    assert_eq!(rt; told(run.menu(&host, &mut two)), Err((18, 2)));
    assert_eq!(rt; two, [event(&[5, 1]), event(&[5, 2])]);
    assert_eq!(rt; told(run.menu(&host, &mut [])), Err((18, 0)));
    let mut three = [event(&[9]); 3];
    assert_eq!(rt; told(run.menu(&host, &mut three)), Ok(3));
    assert_eq!(rt; three, [event(&[5, 1]), event(&[5, 2]), event(&[5, 3])]);
}

/// One state with a loop on each label, with both variables, under two binders of sixteen values each.
fn loops() -> File {
    let mut file = File::of(&[&[AUTOMATON, 1, 0, 0, NONE], &[ANY, 0, 0], &[ANY, 1, 1]]);
    for label in 0..256u16 {
        file.draw(&[ARROW, 0, 0, 0, label, 0, NONE, 2, 0, 3, 0]);
    }
    file
}

#[test]
fn a_menu_of_65536_events(rt: HostRuntime) {
    let mut procedure = Procedure::new();
    let read = procedure.read(loops().bytes());
    assert!(rt; read.is_ok());
    let mut ranges = Ranges::new();
    assert!(rt; ranges.set(0, 100, 16).is_ok() && ranges.set(1, 200, 16).is_ok());
    let mut run = Run::new();
    assert_eq!(rt; told(run.open(&procedure, &ranges, 1)), Ok(1));
    let mut list = [event(&[]); 65536];
    assert_eq!(rt; told(run.menu(&Limits::new(), &mut list)), Ok(65536));
    // the outer binder is the last node, over type 1
    assert_eq!(rt; list.first().copied(), Some(event(&[0, 200, 100])));
    assert_eq!(rt; list.get(17).copied(), Some(event(&[0, 201, 101])));
    assert_eq!(rt; list.last().copied(), Some(event(&[255, 215, 115])));
}
