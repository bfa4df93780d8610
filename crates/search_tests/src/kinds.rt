//! Each kind of node, with the rows that the rules give it.

use crate::drawing::{
    ALL, ANY, ARROW, AUTOMATON, AXLE, CHOICE, CLOSURE, GUARD, LAST_OF_THREE, LAST_OF_TWO, NONE,
    SEQUENCE, SYNCHRONISATION, TWO,
};
use crate::following::Drawing;

/// State 0 is deep final and holds a child of one step on 11; 12 waits for it, 13 does not.
const HOLDING: Drawing = Drawing {
    records: &[
        LAST_OF_TWO,
        &[ARROW, 0, 0, 1, 11],
        &[AUTOMATON, 2, 0, 2, 0, 0, NONE],
        &[ARROW, 1, 0, 1, 12, 1],
        &[ARROW, 1, 0, 0, 13],
    ],
    values: (0, 0),
    begins: (&[0, 0], false),
    chains: &[
        ("too early", &[(&[12], &[])]),
        (
            "the child is left",
            &[(&[11], &[(&[0, 1], true)]), (&[12], &[(&[1, 0], false)])],
        ),
        (
            "the child begins anew",
            &[(&[11], &[(&[0, 1], true)]), (&[13], &[(&[0, 0], false)])],
        ),
    ],
};

/// State 1 is deep final and holds a child that starts in its state 1 and has one step on 11; 14 leads into it, 15 out of it.
const ENTERING: Drawing = Drawing {
    records: &[
        &[AUTOMATON, 2, 1, 1, NONE, 0, NONE],
        &[ARROW, 0, 1, 0, 11],
        &[AUTOMATON, 2, 0, 0, NONE, 2, 0],
        &[ARROW, 1, 0, 1, 14],
        &[ARROW, 1, 1, 0, 15],
    ],
    values: (0, 0),
    begins: (&[0, 0], false),
    chains: &[
        (
            "the child is finished",
            &[(&[14], &[(&[1, 1], false)]), (&[11], &[(&[1, 0], true)])],
        ),
        (
            "the child is left behind",
            &[(&[14], &[(&[1, 1], false)]), (&[15], &[(&[0, 0], false)])],
        ),
    ],
};

/// From state 1 twice to 0 on 5, to 0 and to 2 on 6, and to 2 on 12, which waits though there is no child.
const FORK: Drawing = Drawing {
    records: &[
        &[AUTOMATON, 3, 1, 0, NONE, 0, NONE, 1, NONE],
        &[ARROW, 0, 1, 0, 5],
        &[ARROW, 0, 1, 0, 5],
        &[ARROW, 0, 1, 2, 6],
        &[ARROW, 0, 1, 0, 6],
        &[ARROW, 0, 1, 2, 12, 1],
    ],
    values: (0, 0),
    begins: (&[1], false),
    chains: &[
        ("one state", &[(&[5], &[(&[0], false)])]),
        ("two states", &[(&[6], &[(&[0], false), (&[2], true)])]),
        ("no child", &[(&[12], &[(&[2], true)])]),
    ],
};

#[test]
fn automata(rt: HostRuntime) {
    HOLDING.with_tallies(&rt);
    ENTERING.with_tallies(&rt);
    FORK.with_tallies(&rt);
}

/// The first part has one step and then a loop on 6; the second takes 6 once, and goes back on 3.
const HANDING_OVER: Drawing = Drawing {
    records: &[
        LAST_OF_TWO,
        &[ARROW, 0, 0, 1, 6],
        &[ARROW, 0, 1, 1, 6],
        TWO,
        &[ARROW, 1, 0, 1, 6],
        &[ARROW, 1, 1, 0, 3],
        &[SEQUENCE, 0, 1],
    ],
    values: (0, 0),
    begins: (&[0, 0], false),
    chains: &[(
        "handing over",
        &[
            (&[6], &[(&[0, 1], false)]),
            (&[6], &[(&[0, 1], false), (&[1, 1], false)]),
            (&[6], &[(&[0, 1], false), (&[1, 1], false)]),
            (&[3], &[(&[1, 0], false)]),
        ],
    )],
};

/// One step on 6, then one on 7, again and again.
const SHIFT: Drawing = Drawing {
    records: &[
        LAST_OF_TWO,
        &[ARROW, 0, 0, 1, 6],
        LAST_OF_TWO,
        &[ARROW, 1, 0, 1, 7],
        &[SEQUENCE, 0, 1],
        &[CLOSURE, 2],
    ],
    values: (0, 0),
    begins: (&[0, 0, 0], true),
    chains: &[
        ("too early", &[(&[7], &[])]),
        ("no restart", &[(&[6], &[(&[1, 0, 1], false)]), (&[6], &[])]),
        (
            "restart",
            &[
                (&[6], &[(&[1, 0, 1], false)]),
                (&[7], &[(&[1, 1, 1], true)]),
                (&[6], &[(&[1, 0, 1], false)]),
            ],
        ),
    ],
};

#[test]
fn sequences_and_closures(rt: HostRuntime) {
    HANDING_OVER.with_tallies(&rt);
    SHIFT.with_tallies(&rt);
}

/// Two steps on 8 under guard 0, again and again: the guard is asked at each start and at no other step.
const GUARDED_STEPS: Drawing = Drawing {
    records: &[
        LAST_OF_THREE,
        &[ARROW, 0, 0, 1, 8],
        &[ARROW, 0, 1, 2, 8],
        &[GUARD, 0, 0],
        &[CLOSURE, 1],
    ],
    values: (0, 0),
    begins: (&[0, 0, 0], true),
    chains: &[(
        "one start",
        &[
            (&[8], &[(&[1, 1, 1], false)]),
            (&[8], &[(&[1, 1, 2], true)]),
            (&[8], &[]),
        ],
    )],
};

/// Guard 0 on an arrow, which is asked at each event.
const GUARDED_WAY: Drawing = Drawing {
    records: &[TWO, &[ARROW, 0, 0, 1, 8, 0, 0], &[ARROW, 0, 1, 0, 9]],
    values: (0, 0),
    begins: (&[0], false),
    chains: &[(
        "one way",
        &[
            (&[8], &[(&[1], false)]),
            (&[9], &[(&[0], false)]),
            (&[8], &[]),
        ],
    )],
};

#[test]
fn guards(rt: HostRuntime) {
    GUARDED_STEPS.with_tallies(&rt);
    GUARDED_WAY.with_tallies(&rt);
}

/// Both sides take 7, and it is decided later by 3 or 4.
const DECIDING: Drawing = Drawing {
    records: &[
        TWO,
        &[ARROW, 0, 0, 1, 7],
        &[ARROW, 0, 1, 0, 3],
        LAST_OF_TWO,
        &[ARROW, 1, 0, 1, 7],
        &[ARROW, 1, 1, 0, 4],
        &[CHOICE, 0, 1],
    ],
    values: (0, 0),
    begins: (&[0, 0], false),
    chains: &[
        (
            "left",
            &[
                (&[7], &[(&[1, 1], false), (&[2, 1], true)]),
                (&[3], &[(&[1, 0], false)]),
            ],
        ),
        (
            "right",
            &[
                (&[7], &[(&[1, 1], false), (&[2, 1], true)]),
                (&[4], &[(&[2, 0], false)]),
            ],
        ),
    ],
};

#[test]
fn choices(rt: HostRuntime) {
    DECIDING.with_tallies(&rt);
}

/// Two sides of one step on 5, one at a time.
const APART: Drawing = Drawing {
    records: &[
        LAST_OF_TWO,
        &[ARROW, 0, 0, 1, 5],
        LAST_OF_TWO,
        &[ARROW, 1, 0, 1, 5],
        &[SYNCHRONISATION, 0, 1, 0],
    ],
    values: (0, 0),
    begins: (&[0, 0], false),
    chains: &[(
        "apart",
        &[
            (&[5], &[(&[0, 1], false), (&[1, 0], false)]),
            (&[5], &[(&[1, 1], true)]),
            (&[5], &[]),
        ],
    )],
};

/// Two sides together: on 5 each has two ways, on 7 one, and 6 is taken by the left side, and 8 by the right side, alone.
const TOGETHER: Drawing = Drawing {
    records: &[
        &[AUTOMATON, 3, 1, 0, NONE, 0, NONE, 1, NONE],
        &[ARROW, 0, 1, 0, 5],
        &[ARROW, 0, 1, 2, 5],
        &[ARROW, 0, 1, 2, 6],
        &[ARROW, 0, 1, 2, 7],
        LAST_OF_TWO,
        &[ARROW, 1, 0, 1, 5],
        &[ARROW, 1, 0, 0, 5],
        &[ARROW, 1, 0, 1, 7],
        &[ARROW, 1, 0, 1, 8],
        &[SYNCHRONISATION, 0, 1, 4, 5, 6, 7, 8],
    ],
    values: (0, 0),
    begins: (&[1, 0], false),
    chains: &[
        ("together", &[(&[7], &[(&[2, 1], true)]), (&[7], &[])]),
        (
            "product",
            &[(
                &[5],
                &[
                    (&[0, 0], false),
                    (&[0, 1], false),
                    (&[2, 0], false),
                    (&[2, 1], true),
                ],
            )],
        ),
        ("the right side is stuck", &[(&[6], &[])]),
        ("the left side is stuck", &[(&[8], &[])]),
    ],
};

#[test]
fn synchronisations(rt: HostRuntime) {
    APART.with_tallies(&rt);
    TOGETHER.with_tallies(&rt);
}

/// The axles 1, 2, 3: one is selected, measured and stored, and then the next.
const AXLES: Drawing = Drawing {
    records: AXLE,
    values: (1, 3),
    begins: (&[0, 0, 0], true),
    chains: &[
        (
            "stored",
            &[
                (&[2, 2], &[(&[1, 2, 1], false)]),
                (&[3, 2], &[(&[1, 2, 1], false)]),
                (&[4], &[(&[1, 2, 2], true)]),
                (&[2, 3], &[(&[1, 3, 1], false)]),
            ],
        ),
        (
            "another axle",
            &[(&[2, 2], &[(&[1, 2, 1], false)]), (&[3, 1], &[])],
        ),
        ("no such axle", &[(&[2, 4], &[])]),
    ],
};

/// One event that each value takes, again and again.
const TURN: &[&[u16]] = &[
    &[AUTOMATON, 1, 0, 1, NONE],
    &[ARROW, 0, 0, 0, 5],
    &[ANY, 0, 0],
];

/// An event that each of the values 7, 8 takes.
const TURNING: Drawing = Drawing {
    records: TURN,
    values: (7, 2),
    begins: (&[0, 0], true),
    chains: &[(
        "any value",
        &[
            (&[5], &[(&[1, 0], true), (&[2, 0], true)]),
            (&[5], &[(&[1, 0], true), (&[2, 0], true)]),
        ],
    )],
};

/// The same without a value.
const NOT_TURNING: Drawing = Drawing {
    records: TURN,
    values: (7, 0),
    begins: (&[], false),
    chains: &[("no value", &[(&[5], &[])])],
};

#[test]
fn quantified_choices(rt: HostRuntime) {
    AXLES.with_tallies(&rt);
    TURNING.with_tallies(&rt);
    NOT_TURNING.with_tallies(&rt);
}

/// A wheel is read on 9, and all are stored on 10.
const WHEEL: &[&[u16]] = &[
    LAST_OF_THREE,
    &[ARROW, 0, 0, 1, 9, 0, NONE, 2],
    &[ARROW, 0, 1, 2, 10],
    &[ALL, 0, 0, 1, 10],
];

/// The wheels 1, 2 are read one by one, and stored together.
const WHEELS: Drawing = Drawing {
    records: WHEEL,
    values: (1, 2),
    begins: (&[0, 0], false),
    chains: &[
        (
            "stored",
            &[
                (&[9, 1], &[(&[1, 0], false)]),
                (&[9, 2], &[(&[1, 1], false)]),
                (&[10], &[(&[2, 2], true)]),
            ],
        ),
        ("one read", &[(&[9, 1], &[(&[1, 0], false)]), (&[10], &[])]),
        ("none read", &[(&[10], &[])]),
    ],
};

#[test]
fn quantified_synchronisations(rt: HostRuntime) {
    WHEELS.with_tallies(&rt);
    NO_WHEEL.with_tallies(&rt);
    // above 7
    CAREFUL.with_limits(&rt, 2, 7);
}

/// The same without a wheel.
const NO_WHEEL: Drawing = Drawing {
    records: WHEEL,
    values: (1, 0),
    begins: (&[], true),
    chains: &[("no wheel", &[(&[10], &[])])],
};

/// Guard 0 is asked for each of the values 7, 8, and one instance moves at a time.
const CAREFUL: Drawing = Drawing {
    records: &[TWO, &[ARROW, 0, 0, 1, 5, 0, 0], &[ALL, 0, 0, 0]],
    values: (7, 2),
    begins: (&[0, 0], false),
    chains: &[("one value", &[(&[5], &[(&[0, 1], false)]), (&[5], &[])])],
};

/// Two binders over the values 7, 8: the outermost gives the outer variable, the next one the inner.
const NESTED: Drawing = Drawing {
    records: &[
        TWO,
        &[ARROW, 0, 0, 1, 5, 0, NONE, 2, 0, 3],
        &[ALL, 0, 0, 0],
        &[ALL, 0, 1, 0],
    ],
    values: (7, 2),
    begins: (&[0, 0, 0, 0], false),
    chains: &[
        (
            "one by one",
            &[
                (&[5, 8, 7], &[(&[0, 0, 1, 0], false)]),
                (&[5, 7, 8], &[(&[0, 1, 1, 0], false)]),
                (&[5, 8, 7], &[]),
            ],
        ),
        ("one argument", &[(&[5, 8], &[])]),
    ],
};

/// Guard 0 is on a node, guard 1 on an arrow.
const CHOOSY: Drawing = Drawing {
    records: &[
        TWO,
        &[ARROW, 0, 0, 1, 5, 0, 1, 2, 0, 3],
        &[GUARD, 0, 0],
        &[ANY, 0, 1],
        &[ANY, 0, 2],
    ],
    values: (7, 2),
    begins: (&[0, 0, 0, 0], false),
    chains: &[
        ("both hold", &[(&[5, 8, 7], &[(&[2, 1, 1, 1], false)])]),
        ("guard 0 says no", &[(&[5, 7, 7], &[])]),
        ("guard 1 says no", &[(&[5, 8, 8], &[])]),
    ],
};

#[test]
fn two_binders(rt: HostRuntime) {
    NESTED.with_tallies(&rt);
    // above 7
    CHOOSY.with_limits(&rt, 2, 7);
}
