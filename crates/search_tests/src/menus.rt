//! The events that the arrows of a diagram can carry, and those of them that move it.

use crate::drawing::{AXLE, File};
use crate::following::{begun, each, event, moves, no_8};
use diagram::diagram::Diagram;
use event::event::Event;
use ordered::list::Ordered;
use row::row::Row;
use std::process::Abort;

/// Puts each candidate into a list.
fn candidates(diagram: &Diagram, out: &mut Ordered<Event>) {
    for arrow in 0..256 {
        for outer in 0..17 {
            for inner in 0..17 {
                if let Some(event) = diagram.candidate(arrow, outer, inner) {
                    out.insert(event);
                }
            }
        }
    }
}

/// Whether a list holds these events, each as its label and its arguments.
fn holds(list: &Ordered<Event>, expected: &[&[u16]]) -> bool {
    if list.len() != expected.len() {
        return false;
    }
    for (found, fields) in list.as_slice().iter().zip(expected) {
        if *found != event(fields) {
            return false;
        }
    }
    true
}

/// Whether these are the candidates that move a row.
fn moved_by(diagram: &Diagram, row: &Row, expected: &[&[u16]]) -> bool {
    let mut places = [event(&[]); 16];
    let mut all = Ordered::over(&mut places);
    candidates(diagram, &mut all);
    let mut moving = [event(&[]); 16];
    let mut menu = Ordered::over(&mut moving);
    for event in all.as_slice() {
        if moves(diagram, &no_8(), *event, row) {
            menu.insert(*event);
        }
    }
    holds(&menu, expected)
}

/// The axles 1, 2, 3, in the row after an event, or at first.
fn axle_menu(rt: &impl Abort, taken: Option<&[u16]>, expected: &[&[u16]]) -> bool {
    let diagram = File::of(AXLE).diagram(1, 3).expect(rt, "the file is sound");
    let first = [begun(&diagram)];
    let Some(taken) = taken else {
        return moved_by(&diagram, &first[0], expected);
    };
    let mut places = [begun(&diagram); 2];
    let mut out = Ordered::over(&mut places);
    let answer = each(&diagram, &no_8(), event(taken), &first, &mut out);
    assert_eq!(rt; answer, Ok(()));
    match out.as_slice() {
        [row] => moved_by(&diagram, row, expected),
        _ => false,
    }
}

#[test]
fn menus_of_the_axles(rt: HostRuntime) {
    assert!(rt; axle_menu(&rt, None, &[&[2, 1], &[2, 2], &[2, 3]]));
    assert!(rt; axle_menu(&rt, Some(&[2, 2]), &[&[3, 2], &[4]]));
}

/// Whether these are the candidates of the axles 1, 2, 3.
fn axle_candidates(rt: &impl Abort, expected: &[&[u16]]) -> bool {
    let diagram = File::of(AXLE).diagram(1, 3).expect(rt, "the file is sound");
    let mut places = [event(&[]); 16];
    let mut all = Ordered::over(&mut places);
    candidates(&diagram, &mut all);
    holds(&all, expected)
}

/// The candidate of one arrow under the values at two positions.
fn axle_candidate(rt: &impl Abort, arrow: usize, outer: usize, inner: usize) -> Option<Event> {
    let diagram = File::of(AXLE).diagram(1, 3).expect(rt, "the file is sound");
    diagram.candidate(arrow, outer, inner)
}

#[test]
fn candidates_of_the_axles(rt: HostRuntime) {
    assert!(rt;
        axle_candidates(
            &rt,
            &[&[2, 1], &[2, 2], &[2, 3], &[3, 1], &[3, 2], &[3, 3], &[4]]
        )
    );
    assert_eq!(rt; axle_candidate(&rt, 0, 2, 0), Some(event(&[2, 2])));
    assert_eq!(rt; axle_candidate(&rt, 1, 3, 0), Some(event(&[3, 3])));
    assert_eq!(rt; axle_candidate(&rt, 2, 1, 0), Some(event(&[4])));
    // no position of a value, one of a binder that is not there, and no arrow
    assert_eq!(rt; axle_candidate(&rt, 0, 0, 0), None);
    assert_eq!(rt; axle_candidate(&rt, 2, 4, 0), None);
    assert_eq!(rt; axle_candidate(&rt, 0, 2, 1), None);
    assert_eq!(rt; axle_candidate(&rt, 3, 1, 0), None);
}
