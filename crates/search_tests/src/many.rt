//! Many parts that have to move together: it is seen at once when one of them is stuck, or when there are more rows than places.

use crate::drawing::{ALL, ARROW, AUTOMATON, File, NONE, SYNCHRONISATION, THREE};
use crate::following::{BLANK, Drawing, begun, each, event, limits, moves, no_8};
use host::host::GuardHost;
use ordered::list::Ordered;
use search::overflow::Overflow;
use std::process::Abort;

/// How many rows a list of so many places holds after the event 5, where type 0 has the values 0, 1, and so on, `count` of them.
fn rows_after_5<H: GuardHost>(
    rt: &impl Abort,
    file: &File,
    count: u16,
    host: &H,
    room: usize,
) -> Result<usize, Overflow> {
    let diagram = file.diagram(0, count).expect(rt, "the file is sound");
    let mut places = [BLANK; 128];
    let mut out = Ordered::over(&mut places[..room.min(128)]);
    each(&diagram, host, event(&[5]), &[begun(&diagram)], &mut out)?;
    Ok(out.len())
}

/// Each instance has two ways to go on 5.
const FORKS: &[&[u16]] = &[
    THREE,
    &[ARROW, 0, 0, 1, 5],
    &[ARROW, 0, 0, 2, 5],
    &[ALL, 0, 0, 1, 5],
];

/// With n values there are 2 to the n rows, but without a value nothing moves.
#[test]
fn every_instance_has_two_ways(rt: HostRuntime) {
    let cases = [
        (0, 0, Ok(0)),
        (1, 0, Err(Overflow)),
        (1, 1, Err(Overflow)),
        (1, 2, Ok(2)),
        (3, 7, Err(Overflow)),
        (3, 8, Ok(8)),
        (3, 9, Ok(8)),
        (4, 8, Err(Overflow)),
        (4, 9, Err(Overflow)),
        (4, 16, Ok(16)),
        (7, 127, Err(Overflow)),
        (7, 128, Ok(128)),
        (8, 128, Err(Overflow)),
        (16, 128, Err(Overflow)),
    ];
    for (count, room, expected) in cases {
        let found = rows_after_5(&rt, &File::of(FORKS), count, &no_8(), room);
        assert_eq!(rt; found, expected, "{count} values, {room} places");
    }
}

/// The same with guard 0 on each arrow.
const GUARDED_FORKS: &[&[u16]] = &[
    THREE,
    &[ARROW, 0, 0, 1, 5, 0, 0],
    &[ARROW, 0, 0, 2, 5, 0, 0],
    &[ALL, 0, 0, 1, 5],
];

/// The guard says no for one of sixteen values, the last or the first, and then nothing moves.
#[test]
fn a_guard_holds_up_all(rt: HostRuntime) {
    let file = File::of(GUARDED_FORKS);
    // below 15
    let not_15 = limits(0, 15);
    assert_eq!(rt; rows_after_5(&rt, &file, 15, &not_15, 128), Err(Overflow));
    assert_eq!(rt; rows_after_5(&rt, &file, 16, &not_15, 128), Ok(0));
    // above 0
    assert_eq!(rt; rows_after_5(&rt, &file, 16, &limits(2, 0), 128), Ok(0));
}

/// Sixteen instances: on 5 each has two arrows to one state, on 6 two to different ones, and 9 takes one of them out of the way.
const SIXTEEN: Drawing = Drawing {
    records: &[
        &[AUTOMATON, 4, 0, 0, NONE, 1, NONE, 0, NONE, 0, NONE],
        &[ARROW, 0, 0, 1, 5],
        &[ARROW, 0, 0, 1, 5],
        &[ARROW, 0, 0, 1, 6],
        &[ARROW, 0, 0, 2, 6],
        &[ARROW, 0, 0, 3, 9, 0, NONE, 2],
        &[ALL, 0, 0, 2, 5, 6],
    ],
    values: (0, 16),
    begins: (&[], false),
    chains: &[
        (
            "one row",
            &[
                (
                    &[5],
                    &[(&[1, 1, 1, 1, 1, 1, 1, 1, 1, 1, 1, 1, 1, 1, 1, 1], true)],
                ),
                (&[5], &[]),
            ],
        ),
        (
            "the last is stuck",
            &[
                (
                    &[9, 15],
                    &[(&[0, 0, 0, 0, 0, 0, 0, 0, 0, 0, 0, 0, 0, 0, 0, 3], false)],
                ),
                (&[6], &[]),
            ],
        ),
    ],
};

#[test]
fn sixteen_instances(rt: HostRuntime) {
    SIXTEEN.with_tallies(&rt);
}

/// Sixteen automata in fifteen synchronisations on 5, each in the next, which grow to the left or to the right. Each automaton has
/// an arrow to state 1 and one to `second`, but for one that is stuck, if `stuck` is its number.
fn nested(to_the_left: bool, second: u16, stuck: u16) -> File {
    let mut file = File::new();
    for i in 0..16u16 {
        let before = (2 * i).saturating_sub(2);
        let node = if i == 0 { 0 } else { before + 1 };
        file.draw(THREE);
        if i != stuck {
            file.draw(&[ARROW, node, 0, 1, 5]);
            file.draw(&[ARROW, node, 0, second, 5]);
        }
        if i > 0 {
            let (left, right) = if to_the_left {
                (before, node)
            } else {
                (node, before)
            };
            file.draw(&[SYNCHRONISATION, left, right, 1, 5]);
        }
    }
    file
}

/// Sixteen sides: two ways for each are too many, one way for each is one row, and one that is stuck holds up all.
#[test]
fn sixteen_sides(rt: HostRuntime) {
    let cases = [
        (2, 16, 128, Err(Overflow)),
        (2, 16, 8, Err(Overflow)),
        (1, 16, 128, Ok(1)),
        (1, 16, 8, Ok(1)),
        (2, 0, 128, Ok(0)),
        (2, 15, 8, Ok(0)),
    ];
    for (second, stuck, room, expected) in cases {
        for to_the_left in [false, true] {
            let file = nested(to_the_left, second, stuck);
            assert_eq!(rt;
                rows_after_5(&rt, &file, 0, &no_8(), room),
                expected,
                "{second}, {stuck}, {room} places"
            );
        }
    }
}

/// Thirty-one automata and then sixteen instances in a chain of synchronisations on 5. The first seven automata have two ways to go, and
/// every other part has one.
fn chained() -> File {
    let mut file = File::of(&[THREE, &[ARROW, 0, 0, 1, 5], &[ALL, 0, 0, 1, 5]]);
    for i in 0..31u16 {
        let node = 2 * i + 2;
        file.draw(THREE);
        file.draw(&[ARROW, node, 0, 1, 5]);
        if i > 23 {
            file.draw(&[ARROW, node, 0, 2, 5]);
        }
        file.draw(&[SYNCHRONISATION, node, node - 1, 1, 5]);
    }
    file
}

/// Forty-seven parts, each of which moves in each of the rows that those before it give.
#[test]
fn a_chain_of_parts(rt: HostRuntime) {
    let file = chained();
    assert_eq!(rt; rows_after_5(&rt, &file, 16, &no_8(), 128), Ok(128));
    assert_eq!(rt; rows_after_5(&rt, &file, 16, &no_8(), 127), Err(Overflow));
    assert_eq!(rt; rows_after_5(&rt, &file, 16, &no_8(), 8), Err(Overflow));
}

/// From state 0 to 1 and to 2 on 5, to 1 on 6.
const TWO_WAYS: &[&[u16]] = &[
    THREE,
    &[ARROW, 0, 0, 1, 5],
    &[ARROW, 0, 0, 2, 5],
    &[ARROW, 0, 0, 1, 6],
];

/// What is told of an event where a list of so many places held the row of one state beforehand.
fn beside(rt: &impl Abort, state: u16, label: u16, room: usize) -> Result<usize, Overflow> {
    let diagram = File::of(TWO_WAYS)
        .diagram(0, 0)
        .expect(rt, "the file is sound");
    let mut held = BLANK;
    held.cells[0] = state;
    let mut places = [BLANK; 4];
    let mut out = Ordered::over(&mut places[..room.min(4)]);
    out.insert(held);
    each(&diagram, &no_8(), event(&[label]), &[BLANK], &mut out)?;
    Ok(out.len())
}

/// A list that is full takes rows that it holds, and no others.
#[test]
fn a_full_list(rt: HostRuntime) {
    assert_eq!(rt; beside(&rt, 1, 6, 1), Ok(1));
    assert_eq!(rt; beside(&rt, 0, 6, 1), Err(Overflow));
    assert_eq!(rt; beside(&rt, 0, 7, 1), Ok(1));
    assert_eq!(rt; beside(&rt, 1, 5, 2), Ok(2));
    assert_eq!(rt; beside(&rt, 0, 5, 2), Err(Overflow));
    assert_eq!(rt; beside(&rt, 0, 5, 3), Ok(3));
}

/// Whether 5 moves the row in which a diagram of sixteen values begins.
fn moves_by_5<H: GuardHost>(rt: &impl Abort, records: &[&[u16]], host: &H) -> bool {
    let diagram = File::of(records)
        .diagram(0, 16)
        .expect(rt, "the file is sound");
    moves(&diagram, host, event(&[5]), &begun(&diagram))
}

/// It is asked whether there is a row without making one.
#[test]
fn too_many_rows_are_a_move(rt: HostRuntime) {
    assert!(rt; moves_by_5(&rt, FORKS, &no_8()));
    assert!(rt; moves_by_5(&rt, GUARDED_FORKS, &limits(0, 16)));
    assert!(rt; !moves_by_5(&rt, GUARDED_FORKS, &limits(0, 15)));
}
