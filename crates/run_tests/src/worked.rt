//! Ten diagrams, with the rows and menus that the rules give them.

use crate::drawing::{
    ALL, ANY, ARROW, AUTOMATON, CHOICE, CLOSURE, GUARD, NONE, SEQUENCE, SYNCHRONISATION, TWO,
};
use crate::following::{Drawing, event, holds, shows, told};
use host::limits::Limits;
use host::tallies::Tallies;
use run::run::Run;

/// An axle 1, 2, 3 is selected on 2, measured on 3, stored on 4; then the next.
const AXLES: Drawing = Drawing {
    records: &[
        &[AUTOMATON, 3, 0, 0, NONE, 0, NONE, 1, NONE],
        &[ANY, 0, 0],
        &[CLOSURE, 1],
        &[ARROW, 0, 0, 1, 2, 0, NONE, 2],
        &[ARROW, 0, 1, 1, 3, 0, NONE, 2],
        &[ARROW, 0, 1, 2, 4],
    ],
    first: 1,
    count: 3,
};

#[test]
fn an_axle_is_selected_measured_and_stored(rt: HostRuntime) {
    let mut host = Limits::new();
    let mut run = AXLES.run(&rt);
    assert!(rt; holds(&run, &[&[0, 0, 0]]) && run.is_finished());
    assert!(rt; shows(&run, &host, &[&[2, 1], &[2, 2], &[2, 3]]));
    assert_eq!(rt; told(run.offer(&mut host, event(&[2, 2]))), Ok(1));
    assert!(rt; holds(&run, &[&[1, 2, 1]]) && !run.is_finished());
    assert!(rt; shows(&run, &host, &[&[3, 2], &[4]]));
    assert_eq!(rt; told(run.offer(&mut host, event(&[3, 1]))), Err((16, 1)));
    assert!(rt; holds(&run, &[&[1, 2, 1]]));
    assert_eq!(rt; told(run.offer(&mut host, event(&[4]))), Ok(1));
    assert!(rt; holds(&run, &[&[1, 2, 2]]) && run.is_finished());
}

/// Two sides, each from 0 to 1 on 5.
const APART: Drawing = Drawing {
    records: &[
        TWO,
        TWO,
        &[SYNCHRONISATION, 0, 1, 0],
        &[ARROW, 0, 0, 1, 5],
        &[ARROW, 1, 0, 1, 5],
    ],
    first: 0,
    count: 0,
};

#[test]
fn one_side_moves_where_the_set_is_empty(rt: HostRuntime) {
    let mut host = Limits::new();
    let mut run = APART.run(&rt);
    assert_eq!(rt; told(run.offer(&mut host, event(&[5]))), Ok(2));
    assert!(rt; holds(&run, &[&[0, 1], &[1, 0]]));
    assert_eq!(rt; told(run.offer(&mut host, event(&[5]))), Ok(1));
    assert!(rt; holds(&run, &[&[1, 1]]));
}

#[test]
fn two_ways_are_more_than_a_ceiling_of_one(rt: HostRuntime) {
    let mut host = Limits::new();
    let mut run = Run::new();
    assert_eq!(rt; APART.open(&rt, &mut run, 1), Ok(1));
    assert_eq!(rt; told(run.offer(&mut host, event(&[5]))), Err((17, 1)));
    assert!(rt; holds(&run, &[&[0, 0]]));
    assert!(rt; shows(&run, &host, &[&[5]]));
}

/// The same with 5 in the set.
const TOGETHER: Drawing = Drawing {
    records: &[
        TWO,
        TWO,
        &[SYNCHRONISATION, 0, 1, 1, 5],
        &[ARROW, 0, 0, 1, 5],
        &[ARROW, 1, 0, 1, 5],
    ],
    first: 0,
    count: 0,
};

#[test]
fn both_sides_move_where_the_label_is_in_the_set(rt: HostRuntime) {
    let mut host = Limits::new();
    let mut run = TOGETHER.run(&rt);
    assert_eq!(rt; told(run.offer(&mut host, event(&[5]))), Ok(1));
    assert!(rt; holds(&run, &[&[1, 1]]));
    assert_eq!(rt; told(run.offer(&mut host, event(&[5]))), Err((16, 1)));
}

/// The first part from 0 to 1 and from 1 to 1 on 6, 1 final; the second from 0 to 1 on 6.
const HANDED_OVER: Drawing = Drawing {
    records: &[
        &[AUTOMATON, 2, 0, 0, NONE, 1, NONE],
        TWO,
        &[SEQUENCE, 0, 1],
        &[ARROW, 0, 0, 1, 6],
        &[ARROW, 0, 1, 1, 6],
        &[ARROW, 1, 0, 1, 6],
    ],
    first: 0,
    count: 0,
};

#[test]
fn a_sequence_goes_on_or_hands_over(rt: HostRuntime) {
    let mut host = Limits::new();
    let mut run = HANDED_OVER.run(&rt);
    assert_eq!(rt; told(run.offer(&mut host, event(&[6]))), Ok(1));
    assert!(rt; holds(&run, &[&[0, 1]]));
    assert_eq!(rt; told(run.offer(&mut host, event(&[6]))), Ok(2));
    assert!(rt; holds(&run, &[&[0, 1], &[1, 1]]));
}

/// Either side from 0 to 1 on 7.
const EITHER: Drawing = Drawing {
    records: &[
        TWO,
        TWO,
        &[CHOICE, 0, 1],
        &[ARROW, 0, 0, 1, 7],
        &[ARROW, 1, 0, 1, 7],
    ],
    first: 0,
    count: 0,
};

#[test]
fn a_choice_keeps_both_readings(rt: HostRuntime) {
    let mut host = Limits::new();
    let mut run = EITHER.run(&rt);
    assert_eq!(rt; told(run.offer(&mut host, event(&[7]))), Ok(2));
    assert!(rt; holds(&run, &[&[1, 1], &[2, 1]]));
}

/// A guard over 0 to 1 to 2 on 8.
const GUARDED: Drawing = Drawing {
    records: &[
        &[AUTOMATON, 3, 0, 0, NONE, 0, NONE, 0, NONE],
        &[GUARD, 0, 0],
        &[ARROW, 0, 0, 1, 8],
        &[ARROW, 0, 1, 2, 8],
    ],
    first: 0,
    count: 0,
};

#[test]
fn a_guard_is_asked_once(rt: HostRuntime) {
    let mut host = Tallies::new();
    // yes while fewer than one 8 was told
    let set = host.set(0, 8, 1);
    assert!(rt; set.is_ok());
    let mut run = GUARDED.run(&rt);
    assert_eq!(rt; told(run.offer(&mut host, event(&[8]))), Ok(1));
    assert_eq!(rt; told(run.offer(&mut host, event(&[8]))), Ok(1));
    assert!(rt; holds(&run, &[&[1, 2]]));
    assert_eq!(rt; told(run.offer(&mut host, event(&[8]))), Err((16, 1)));
    // what the host was told before an opening counts
    let mut again = GUARDED.run(&rt);
    assert_eq!(rt; told(again.offer(&mut host, event(&[8]))), Err((16, 1)));
}

/// For the values 1 and 2, each from 0 to 1 on 9 with its own value; then both to 2 on 10.
const ALL_TOGETHER: Drawing = Drawing {
    records: &[
        &[AUTOMATON, 3, 0, 0, NONE, 0, NONE, 0, NONE],
        &[ALL, 0, 0, 1, 10],
        &[ARROW, 0, 0, 1, 9, 0, NONE, 2],
        &[ARROW, 0, 1, 2, 10],
    ],
    first: 1,
    count: 2,
};

#[test]
fn instances_move_one_by_one_and_together(rt: HostRuntime) {
    let mut host = Limits::new();
    let mut run = ALL_TOGETHER.run(&rt);
    assert_eq!(rt; told(run.offer(&mut host, event(&[10]))), Err((16, 1)));
    assert_eq!(rt; told(run.offer(&mut host, event(&[9, 1]))), Ok(1));
    assert!(rt; holds(&run, &[&[1, 0]]));
    assert_eq!(rt; told(run.offer(&mut host, event(&[9, 2]))), Ok(1));
    assert!(rt; holds(&run, &[&[1, 1]]));
    assert_eq!(rt; told(run.offer(&mut host, event(&[10]))), Ok(1));
    assert!(rt; holds(&run, &[&[2, 2]]));
}

/// State 0 holds a child with 0 to 1 on 11, 1 final; from 0 to 1 on 12, which waits for it.
const WAITING: Drawing = Drawing {
    records: &[
        &[AUTOMATON, 2, 0, 0, NONE, 1, NONE],
        &[AUTOMATON, 2, 0, 0, 0, 0, NONE],
        &[ARROW, 0, 0, 1, 11],
        &[ARROW, 1, 0, 1, 12, 1],
    ],
    first: 0,
    count: 0,
};

#[test]
fn an_arrow_waits_for_the_child(rt: HostRuntime) {
    let mut host = Limits::new();
    let mut run = WAITING.run(&rt);
    assert_eq!(rt; told(run.offer(&mut host, event(&[12]))), Err((16, 1)));
    assert_eq!(rt; told(run.offer(&mut host, event(&[11]))), Ok(1));
    assert!(rt; holds(&run, &[&[0, 1]]));
    assert_eq!(rt; told(run.offer(&mut host, event(&[12]))), Ok(1));
    assert!(rt; holds(&run, &[&[1, 0]]));
}
