ghost use Rattle.std.specs.Prelude.{◌≤◌};

use crate::file::{File, Told, told_bytes};
use notation::arrow::{Argument, Arrow};
use notation::node::{Mark, Node, State};
use procedure::procedure::Procedure;
use std::process::Abort;
use std::test::Fail;

// the numbers that a file has: a `Kind` has no number to give, and a mistake in it must not hide in its own tests
const AUTOMATON: u16 = 1;

const SEQUENCE: u16 = 2;

const CLOSURE: u16 = 3;

const GUARD: u16 = 4;

const CHOICE: u16 = 5;

const SYNCHRONISATION: u16 = 6;
/// A quantified choice.
const ANY: u16 = 7;
/// A quantified synchronisation.
const ALL: u16 = 8;

const ARROW: u16 = 9;

const NONE: u16 = 65535;

/// An automaton of one state.
const LEAF: &[u16] = &[AUTOMATON, 1, 0, 0, NONE];
/// An arrow of node 0 from its state 0 to its state 0.
const TURN: &[u16] = &[ARROW, 0, 0, 0, 0, 0, NONE, 0, 0, 0, 0];
/// The same with an outer, and with an inner variable.
const OUTER: &[u16] = &[ARROW, 0, 0, 0, 0, 0, NONE, 2, 0, 0, 0];

const INNER: &[u16] = &[ARROW, 0, 0, 0, 0, 0, NONE, 3, 0, 0, 0];

/// Reads each file of bytes, and compares what the reading tells.
fn read_bytes(rt: &impl Abort, cases: &[(&str, &[u8], Told)]) {
    for (name, bytes, told) in cases {
        assert_eq!(rt; told_bytes(bytes), *told, "{}", *name);
    }
}

/// Reads each file of records, and compares what the reading tells.
// beside `read_bytes`, since a case of records has to be made into a file
fn read_records(rt: &impl Abort, cases: &[(&str, &[&[u16]], Told)]) {
    for (name, records, told) in cases {
        let mut file = File::new();
        for fields in *records {
            file.record(fields);
        }
        assert_eq!(rt; file.told(), *told, "{}", *name);
    }
}

/// Questions 1 to 3: the size of the file, and the length and the kind of a record.
#[test]
fn frames(rt: HostRuntime) {
    read_bytes(
        &rt,
        &[
            ("16,384 bytes", &[0; 16384], Err((2, 1, 0))),
            ("16,385 bytes", &[0; 16385], Err((1, 1, 0))),
            ("no byte", &[], Err((8, 1, 65535))),
            ("one byte", &[0], Err((2, 1, 0))),
            ("half a kind", &[2, 0, 1], Err((2, 1, 0))),
            (
                "a whole record",
                &[10, 0, 1, 0, 1, 0, 0, 0, 0, 0, 255, 255],
                Ok(1),
            ),
            (
                "a byte behind it",
                &[10, 0, 1, 0, 1, 0, 0, 0, 0, 0, 255, 255, 0],
                Err((2, 1, 1)),
            ),
            (
                "a byte less",
                &[10, 0, 1, 0, 1, 0, 0, 0, 0, 0, 255],
                Err((2, 1, 0)),
            ),
            ("length 0", &[0, 0, 3, 0], Err((2, 1, 0))),
            ("length 1", &[1, 0, 3, 0], Err((2, 1, 0))),
            ("kind 0", &[2, 0, 0, 0], Err((3, 1, 0))),
            ("kind 10", &[2, 0, 10, 0], Err((3, 1, 0))),
            ("kind 257", &[2, 0, 1, 1], Err((3, 1, 0))),
        ],
    );
}

/// Question 4: the length of a record, exactly as its kind and its count ask.
#[test]
fn lengths(rt: HostRuntime) {
    read_bytes(
        &rt,
        &[
            (
                "an automaton without a count",
                &[2, 0, 1, 0],
                Err((4, 1, 0)),
            ),
            (
                "an automaton with half a count",
                &[3, 0, 1, 0, 1],
                Err((4, 1, 0)),
            ),
            (
                "a sequence and a byte",
                &[7, 0, 2, 0, 0, 0, 1, 0, 0],
                Err((4, 1, 0)),
            ),
        ],
    );
    read_records(
        &rt,
        &[
            ("a closure without a body", &[&[CLOSURE]], Err((4, 1, 0))),
            (
                "a closure of two",
                &[LEAF, &[CLOSURE, 0, 0]],
                Err((4, 1, 1)),
            ),
            (
                "a synchronisation without a count",
                &[&[SYNCHRONISATION, 0, 1]],
                Err((4, 1, 0)),
            ),
            (
                "16,384 states: the length wraps to 6",
                &[&[AUTOMATON, 16384, 0]],
                Err((4, 1, 0)),
            ),
            (
                "32,768 labels: the length wraps to 8",
                &[&[SYNCHRONISATION, 0, 1, 32768]],
                Err((4, 1, 0)),
            ),
        ],
    );
}

/// Question 5 of nodes.
#[test]
fn fields_of_nodes(rt: HostRuntime) {
    read_records(
        &rt,
        &[
            ("no state", &[&[AUTOMATON, 0, 0]], Err((5, 1, 0))),
            (
                "start behind the last state",
                &[&[AUTOMATON, 1, 1, 0, NONE]],
                Err((5, 1, 0)),
            ),
            (
                "start at the last state",
                &[&[AUTOMATON, 2, 1, 0, NONE, 0, NONE]],
                Ok(1),
            ),
            ("mark 3", &[LEAF, &[AUTOMATON, 1, 0, 3, 0]], Err((5, 1, 1))),
            (
                "mark 2 without a child",
                &[&[AUTOMATON, 1, 0, 2, NONE]],
                Err((5, 1, 0)),
            ),
            (
                "mark 2 with a child",
                &[LEAF, &[AUTOMATON, 1, 0, 2, 0]],
                Ok(2),
            ),
            ("guard 32", &[LEAF, &[GUARD, 32, 0]], Err((5, 1, 1))),
            ("guard 31", &[LEAF, &[GUARD, 31, 0]], Ok(2)),
            (
                "a choice over type 8",
                &[LEAF, &[ANY, 8, 0]],
                Err((5, 1, 1)),
            ),
            ("a choice over type 7", &[LEAF, &[ANY, 7, 0]], Ok(2)),
            (
                "a synchronisation over type 8",
                &[LEAF, &[ALL, 8, 0, 0]],
                Err((5, 1, 1)),
            ),
            (
                "a synchronisation over type 7",
                &[LEAF, &[ALL, 7, 0, 0]],
                Ok(2),
            ),
            (
                "17 labels",
                &[
                    LEAF,
                    &[
                        ALL, 0, 0, 17, 0, 1, 2, 3, 4, 5, 6, 7, 8, 9, 10, 11, 12, 13, 14, 15, 16,
                    ],
                ],
                Err((5, 1, 1)),
            ),
            (
                "16 labels",
                &[
                    LEAF,
                    &[
                        ALL, 0, 0, 16, 0, 1, 2, 3, 4, 5, 6, 7, 8, 9, 10, 11, 12, 13, 14, 15,
                    ],
                ],
                Ok(2),
            ),
            (
                "equal labels",
                &[LEAF, LEAF, &[SYNCHRONISATION, 0, 1, 2, 4, 4]],
                Err((5, 1, 2)),
            ),
            (
                "falling labels",
                &[LEAF, LEAF, &[SYNCHRONISATION, 0, 1, 2, 5, 4]],
                Err((5, 1, 2)),
            ),
            (
                "label 256",
                &[LEAF, LEAF, &[SYNCHRONISATION, 0, 1, 2, 4, 256]],
                Err((5, 1, 2)),
            ),
            (
                "label 255",
                &[LEAF, LEAF, &[SYNCHRONISATION, 0, 1, 2, 4, 255]],
                Ok(3),
            ),
        ],
    );
}

/// Question 5 of arrows.
#[test]
fn fields_of_arrows(rt: HostRuntime) {
    read_records(
        &rt,
        &[
            (
                "label 256",
                &[LEAF, &[ARROW, 0, 0, 0, 256, 0, NONE, 0, 0, 0, 0]],
                Err((5, 1, 1)),
            ),
            (
                "wait 2",
                &[LEAF, &[ARROW, 0, 0, 0, 0, 2, NONE, 0, 0, 0, 0]],
                Err((5, 1, 1)),
            ),
            (
                "guard 32",
                &[LEAF, &[ARROW, 0, 0, 0, 0, 0, 32, 0, 0, 0, 0]],
                Err((5, 1, 1)),
            ),
            (
                "guard 65,534",
                &[LEAF, &[ARROW, 0, 0, 0, 0, 0, 65534, 0, 0, 0, 0]],
                Err((5, 1, 1)),
            ),
            (
                "the largest of each",
                &[LEAF, &[ARROW, 0, 0, 0, 255, 1, 31, 1, 65535, 1, 65535]],
                Ok(1),
            ),
            (
                "argument kind 4",
                &[LEAF, &[ARROW, 0, 0, 0, 0, 0, NONE, 4, 0, 0, 0]],
                Err((5, 1, 1)),
            ),
            (
                "second argument kind 4",
                &[LEAF, &[ARROW, 0, 0, 0, 0, 0, NONE, 1, 0, 4, 0]],
                Err((5, 1, 1)),
            ),
            (
                "a value of no argument",
                &[LEAF, &[ARROW, 0, 0, 0, 0, 0, NONE, 0, 1, 0, 0]],
                Err((5, 1, 1)),
            ),
            (
                "a value of the outer variable",
                &[LEAF, &[ARROW, 0, 0, 0, 0, 0, NONE, 2, 1, 0, 0]],
                Err((5, 1, 1)),
            ),
            (
                "a value of the inner variable",
                &[LEAF, &[ARROW, 0, 0, 0, 0, 0, NONE, 3, 1, 0, 0]],
                Err((5, 1, 1)),
            ),
            (
                "a second argument without a first",
                &[LEAF, &[ARROW, 0, 0, 0, 0, 0, NONE, 0, 0, 1, 0]],
                Err((5, 1, 1)),
            ),
        ],
    );
}

/// What a reading tells of an automaton of so many states.
fn told_states(count: u16) -> Told
    requires { count ≤ 33 }
{
    let mut file = File::new();
    file.field(6 + 4 * count);
    file.field(AUTOMATON);
    file.field(count);
    file.field(0);
    for _ in 0..count {
        file.field(0);
        file.field(NONE);
    }
    file.told()
}

/// What a reading tells of an automaton under so many closures, with so many arrows.
fn told_chain(closures: u16, arrows: u16) -> Told {
    let mut file = File::new();
    file.record(LEAF);
    for body in 0..closures {
        file.record(&[CLOSURE, body]);
    }
    for _ in 0..arrows {
        file.record(TURN);
    }
    file.told()
}

/// Question 5: how many states, nodes and arrows there may be.
#[test]
fn counts(rt: HostRuntime) {
    assert_eq!(rt; told_states(33), Err((5, 1, 0)));
    assert_eq!(rt; told_states(32), Ok(1));
    assert_eq!(rt; told_chain(64, 0), Err((5, 1, 64)));
    assert_eq!(rt; told_chain(63, 0), Ok(64));
    assert_eq!(rt; told_chain(0, 257), Err((5, 1, 257)));
    assert_eq!(rt; told_chain(0, 256), Ok(1));
    assert_eq!(rt; told_chain(63, 256), Ok(64));
}

/// Questions 6 and 7: children are below their nodes and nobody's child yet, and arrows go between states of earlier automata.
#[test]
fn children_and_arrows(rt: HostRuntime) {
    read_records(
        &rt,
        &[
            (
                "a node as its own child",
                &[LEAF, &[CLOSURE, 1]],
                Err((6, 1, 1)),
            ),
            ("a child above", &[LEAF, &[CLOSURE, 2]], Err((6, 1, 1))),
            (
                "a closure of none",
                &[LEAF, &[CLOSURE, NONE]],
                Err((6, 1, 1)),
            ),
            (
                "a child twice in a record",
                &[LEAF, &[SEQUENCE, 0, 0]],
                Err((6, 1, 1)),
            ),
            (
                "a child of two states",
                &[LEAF, &[AUTOMATON, 2, 0, 0, 0, 0, 0]],
                Err((6, 1, 1)),
            ),
            (
                "a child of two nodes",
                &[LEAF, &[CLOSURE, 0], &[CLOSURE, 0]],
                Err((6, 1, 2)),
            ),
            (
                "two children of one node",
                &[LEAF, LEAF, &[CHOICE, 1, 0]],
                Ok(3),
            ),
            (
                "an arrow before its automaton",
                &[TURN, LEAF],
                Err((7, 1, 0)),
            ),
            (
                "an arrow of a closure",
                &[
                    LEAF,
                    &[CLOSURE, 0],
                    &[ARROW, 1, 0, 0, 0, 0, NONE, 0, 0, 0, 0],
                ],
                Err((7, 1, 2)),
            ),
            (
                "from behind the last state",
                &[LEAF, &[ARROW, 0, 1, 0, 0, 0, NONE, 0, 0, 0, 0]],
                Err((7, 1, 1)),
            ),
            (
                "to behind the last state",
                &[LEAF, &[ARROW, 0, 0, 1, 0, 0, NONE, 0, 0, 0, 0]],
                Err((7, 1, 1)),
            ),
            (
                "at the last state",
                &[
                    &[AUTOMATON, 2, 0, 0, NONE, 0, NONE],
                    &[ARROW, 0, 1, 1, 0, 0, NONE, 0, 0, 0, 0],
                ],
                Ok(1),
            ),
        ],
    );
}

/// Questions 8 to 10: one root, few binders, and variables in scope. Binders are nodes 1 and up.
#[test]
fn whole_files(rt: HostRuntime) {
    read_records(
        &rt,
        &[
            ("two roots", &[LEAF, LEAF], Err((8, 1, 0))),
            (
                "three binders",
                &[LEAF, &[ANY, 0, 0], &[ALL, 0, 1, 0], &[ANY, 0, 2]],
                Err((9, 1, 1)),
            ),
            ("two binders", &[LEAF, &[ALL, 0, 0, 0], &[ANY, 0, 1]], Ok(3)),
            ("outer under none", &[LEAF, OUTER], Err((10, 1, 0))),
            ("outer under one", &[LEAF, OUTER, &[ALL, 0, 0, 0]], Ok(2)),
            (
                "inner under one",
                &[LEAF, INNER, &[ANY, 0, 0]],
                Err((10, 1, 0)),
            ),
            (
                "inner under two",
                &[LEAF, INNER, &[ANY, 0, 0], &[ANY, 0, 1]],
                Ok(3),
            ),
            (
                "the second arrow",
                &[LEAF, OUTER, INNER, &[ANY, 0, 0]],
                Err((10, 1, 1)),
            ),
        ],
    );
    // the first question that is answered no is told
    read_records(
        &rt,
        &[
            (
                "5 and 6 of one record",
                &[LEAF, &[GUARD, 32, 1]],
                Err((5, 1, 1)),
            ),
            ("7 of a record, 2 of the next", &[TURN, &[]], Err((7, 1, 0))),
            (
                "8 and 9 of one file",
                &[LEAF, &[ANY, 0, 0], &[ANY, 0, 1], &[ANY, 0, 2], LEAF],
                Err((8, 1, 3)),
            ),
        ],
    );
}

/// What a procedure holds after an accepted file, and after a refused one.
#[test]
fn left_behind(rt: HostRuntime) -> Result<(), Fail> {
    let mut file = File::new();
    file.record(&[AUTOMATON, 2, 1, 1, NONE, 0, NONE]);
    file.record(&[ARROW, 0, 1, 0, 3, 1, 7, 1, 9, 0, 0]);
    let mut procedure = Procedure::new();
    assert_eq!(rt; procedure.read(file.bytes())?, 1);
    assert_eq!(rt; procedure.arrow_count(), 1);
    let Some(Node::Automaton { states }) = procedure.node(0) else {
        return Err(Fail::new("node 0 is no automaton"));
    };
    assert_eq!(rt; states.start, 1);
    assert_eq!(rt;
        states.table.as_slice(),
        [
            State {
                mark: Mark::Shallow,
                child: None,
            },
            State {
                mark: Mark::Unmarked,
                child: None,
            },
        ]
        .as_slice()
    );
    assert_eq!(rt;
        procedure.arrow(0),
        Some(Arrow {
            node: 0,
            from: 1,
            to: 0,
            label: 3,
            waits: true,
            guard: Some(7),
            first: Argument::Constant(9),
            second: Argument::Absent,
        })
    );
    assert!(rt; procedure.read(&[0]).is_err());
    assert_eq!(rt; procedure.node_count(), 0);
    assert_eq!(rt; procedure.arrow_count(), 0);
    Ok(())
}
