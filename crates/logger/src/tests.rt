use crate::playing::played;
use crate::report::reported;
use script::wrong::Wrong;
use std::test::Fail;

/// Files that are refused, one for each form of the second line, and what is said of them.
const REFUSED: &[(&[u8], &str)] = &[
    (
        &[0; 16385],
        "refused: number 1, layer 1, place 0\nIs the file within 16,384 bytes? No.\n",
    ),
    (
        &[0],
        "refused: number 2, layer 1, place 0\nIs the record whole, with a length of at least 2? No, not record 0 (counted from 0).\n",
    ),
    (
        &[2, 0, 0, 0],
        "refused: number 3, layer 1, place 0\nIs the kind one of 1 to 9? No, not in record 0 (counted from 0).\n",
    ),
    (
        &[],
        "refused: number 8, layer 1, place 65535\nIs there a node, and is every node but the root a child? No, there is no node.\n",
    ),
    (
        &[
            10, 0, 1, 0, 1, 0, 0, 0, 0, 0, 255, 255, 10, 0, 1, 0, 1, 0, 0, 0, 0, 0, 255, 255,
        ],
        "refused: number 8, layer 1, place 0\nIs there a node, and is every node but the root a child? No, node 0 is nobody's child.\n",
    ),
    (
        &[
            10, 0, 1, 0, 1, 0, 0, 0, 0, 0, 255, 255, 6, 0, 7, 0, 0, 0, 0, 0, 6, 0, 7, 0, 0, 0, 1,
            0, 6, 0, 7, 0, 0, 0, 2, 0,
        ],
        "refused: number 9, layer 1, place 1\nIs every binder under at most one other? No, not node 1.\n",
    ),
    (
        &[
            10, 0, 1, 0, 1, 0, 0, 0, 0, 0, 255, 255, 22, 0, 9, 0, 0, 0, 0, 0, 0, 0, 0, 0, 0, 0,
            255, 255, 2, 0, 0, 0, 0, 0, 0, 0,
        ],
        "refused: number 10, layer 1, place 0\nIs every arrow's variable in scope? No, not in arrow 0.\n",
    ),
];

#[test]
fn refusals(rt: HostRuntime) -> Result<(), Fail> {
    for (file, text) in REFUSED {
        let Err(report) = reported(rt.alloc(), file)? else {
            return Err(Fail::new("a refused file is reported as sound"));
        };
        assert_eq!(rt; report.as_str(), *text);
    }
    Ok(())
}

/// A file with every kind of node and every form of argument.
const TYRES: &[u8] = &[
    18, 0, 1, 0, 3, 0, 0, 0, 0, 0, 255, 255, 0, 0, 255, 255, 1, 0, 255, 255, 22, 0, 9, 0, 0, 0, 0,
    0, 1, 0, 3, 0, 0, 0, 255, 255, 2, 0, 0, 0, 3, 0, 0, 0, 22, 0, 9, 0, 0, 0, 1, 0, 1, 0, 6, 0, 0,
    0, 255, 255, 1, 0, 50, 0, 3, 0, 0, 0, 22, 0, 9, 0, 0, 0, 1, 0, 2, 0, 4, 0, 0, 0, 0, 0, 2, 0, 0,
    0, 0, 0, 0, 0, 6, 0, 7, 0, 1, 0, 0, 0, 4, 0, 3, 0, 1, 0, 18, 0, 1, 0, 3, 0, 0, 0, 0, 0, 255,
    255, 2, 0, 2, 0, 1, 0, 255, 255, 22, 0, 9, 0, 3, 0, 0, 0, 1, 0, 2, 0, 0, 0, 255, 255, 2, 0, 0,
    0, 0, 0, 0, 0, 22, 0, 9, 0, 3, 0, 1, 0, 2, 0, 5, 0, 1, 0, 255, 255, 2, 0, 0, 0, 0, 0, 0, 0, 22,
    0, 9, 0, 3, 0, 2, 0, 2, 0, 8, 0, 0, 0, 255, 255, 0, 0, 0, 0, 0, 0, 0, 0, 10, 0, 8, 0, 0, 0, 3,
    0, 1, 0, 8, 0, 14, 0, 1, 0, 2, 0, 0, 0, 0, 0, 255, 255, 1, 0, 255, 255, 22, 0, 9, 0, 5, 0, 0,
    0, 1, 0, 1, 0, 0, 0, 255, 255, 0, 0, 0, 0, 0, 0, 0, 0, 14, 0, 1, 0, 2, 0, 0, 0, 0, 0, 255, 255,
    1, 0, 255, 255, 22, 0, 9, 0, 6, 0, 0, 0, 0, 0, 7, 0, 0, 0, 255, 255, 1, 0, 250, 0, 0, 0, 0, 0,
    22, 0, 9, 0, 6, 0, 0, 0, 1, 0, 1, 0, 0, 0, 255, 255, 0, 0, 0, 0, 0, 0, 0, 0, 6, 0, 4, 0, 3, 0,
    6, 0, 6, 0, 5, 0, 5, 0, 7, 0, 6, 0, 2, 0, 8, 0, 4, 0, 14, 0, 1, 0, 2, 0, 0, 0, 0, 0, 255, 255,
    1, 0, 255, 255, 22, 0, 9, 0, 10, 0, 0, 0, 0, 0, 8, 0, 0, 0, 1, 0, 0, 0, 0, 0, 0, 0, 0, 0, 22,
    0, 9, 0, 10, 0, 0, 0, 1, 0, 9, 0, 0, 0, 255, 255, 0, 0, 0, 0, 0, 0, 0, 0, 10, 0, 6, 0, 9, 0,
    10, 0, 1, 0, 8, 0,
];

/// What is said of it.
const LISTED: &str = "accepted: 12 nodes, 11 arrows\n\
node 0: automaton, start 0, states 0, 1, 2 shallow\n\
node 1: quantified choice, type 1, body 0\n\
node 2: closure, body 1\n\
node 3: automaton, start 0, states 0, 1 deep child 2, 2 shallow\n\
node 4: quantified synchronisation, type 0, body 3, labels 8\n\
node 5: automaton, start 0, states 0, 1 shallow\n\
node 6: automaton, start 0, states 0, 1 shallow\n\
node 7: guard 3, body 6\n\
node 8: choice, left 5, right 7\n\
node 9: sequence, first 8, second 4\n\
node 10: automaton, start 0, states 0, 1 shallow\n\
node 11: synchronisation, left 9, right 10, labels 8\n\
arrow 0: automaton 0, from 0 to 1 on 3(outer,inner), no wait, no guard\n\
arrow 1: automaton 0, from 1 to 1 on 6(50,inner), no wait, no guard\n\
arrow 2: automaton 0, from 1 to 2 on 4(outer), no wait, guard 0\n\
arrow 3: automaton 3, from 0 to 1 on 2(outer), no wait, no guard\n\
arrow 4: automaton 3, from 1 to 2 on 5(outer), wait, no guard\n\
arrow 5: automaton 3, from 2 to 2 on 8, no wait, no guard\n\
arrow 6: automaton 5, from 0 to 1 on 1, no wait, no guard\n\
arrow 7: automaton 6, from 0 to 0 on 7(250), no wait, no guard\n\
arrow 8: automaton 6, from 0 to 1 on 1, no wait, no guard\n\
arrow 9: automaton 10, from 0 to 0 on 8, no wait, guard 1\n\
arrow 10: automaton 10, from 0 to 1 on 9, no wait, no guard\n";

#[test]
fn a_sound_file_is_listed(rt: HostRuntime) -> Result<(), Fail> {
    let Ok(report) = reported(rt.alloc(), TYRES)? else {
        return Err(Fail::new("a sound file is reported as refused"));
    };
    assert_eq!(rt; report.as_str(), LISTED);
    Ok(())
}

/// An automaton of two states, and an arrow from one to the other.
const STEP: &[u8] = &[
    14, 0, 1, 0, 2, 0, 0, 0, 0, 0, 255, 255, 1, 0, 255, 255, 22, 0, 9, 0, 0, 0, 0, 0, 1, 0, 1, 0,
    0, 0, 255, 255, 0, 0, 0, 0, 0, 0, 0, 0,
];

/// A script that ends at its sixth line.
const SCRIPT: &[u8] =
    b"open 2 # states at most\nmenu\noffer 1\nrows\nrange 9 0 1\nhost limits\nrows";

/// What is said of the lines before.
const SAID: &str =
    "accepted: 1 nodes, 1 arrows\nopen 2: 1 row\nmenu 64: 1 event: 1\noffer 1: 1 row\nrows: 1 row, finished: yes\n  1\nrange 9 0 1: refused: number 19, layer 4, place 0\n";

#[test]
fn a_script(rt: HostRuntime) -> Result<(), Fail> {
    let Ok(account) = played(rt.alloc(), STEP, SCRIPT)? else {
        return Err(Fail::new("a sound file is refused"));
    };
    assert_eq!(rt; account.said.as_str(), SAID);
    let wrong = account.wrong.ok_or("a wrong line is passed over")?;
    assert_eq!(rt; wrong.number, 6);
    assert_eq!(rt; wrong.wrong, Wrong::LateHost);
    Ok(())
}
