use crate::told::plain;
use event::event::Event;
use ordered::list::Ordered;
use row::row::Row;

/// The events at the first three positions.
fn events(list: &Ordered<Event>) -> [Option<Event>; 3] {
    [list.get(0), list.get(1), list.get(2)]
}

#[test]
fn a_full_list_keeps_the_lowest(rt: HostRuntime) {
    let mut places = [plain(90), plain(91)];
    let mut list = Ordered::over(&mut places);
    assert_eq!(rt; events(&list), [None, None, None]);
    assert!(rt; !list.insert(plain(4)));
    assert!(rt; !list.insert(plain(2)));
    assert_eq!(rt; events(&list), [Some(plain(2)), Some(plain(4)), None]);
    assert!(rt; list.insert(plain(6)), "a larger one is left out");
    assert_eq!(rt; events(&list), [Some(plain(2)), Some(plain(4)), None]);
    assert!(rt; !list.insert(plain(4)), "an equal one changes nothing");
    assert_eq!(rt; events(&list), [Some(plain(2)), Some(plain(4)), None]);
    assert!(rt;
        list.insert(plain(1)),
        "a smaller one drives out the largest"
    );
    assert_eq!(rt; events(&list), [Some(plain(1)), Some(plain(2)), None]);
    assert_eq!(rt; list.len(), 2);
}

#[test]
fn later_places_stay(rt: HostRuntime) {
    let mut places = [plain(90), plain(91), plain(92)];
    let mut list = Ordered::over(&mut places);
    assert!(rt; !list.insert(plain(7)));
    assert!(rt; !list.insert(plain(7)));
    assert_eq!(rt; list.len(), 1);
    assert_eq!(rt; places, [plain(7), plain(91), plain(92)]);
}

/// A list of eight even labels, put in from the middle outwards.
fn evens<'a>(places: &'a mut [Event; 8]) -> Ordered<'a, Event> {
    let mut list = Ordered::over(places);
    for label in [8, 6, 10, 4, 12, 2, 14, 0] {
        list.insert(plain(label));
    }
    list
}

#[test]
fn an_element_finds_its_place(rt: HostRuntime) {
    let mut places = [plain(90); 8];
    let list = evens(&mut places);
    let labels = [0, 2, 4, 6, 8, 10, 12, 14];
    assert_eq!(rt; list.as_slice(), labels.map(plain).as_slice());
}

#[test]
fn a_list_has_what_it_holds(rt: HostRuntime) {
    let mut places = [plain(90); 8];
    let list = evens(&mut places);
    for label in 0..16 {
        assert_eq!(rt; list.has(&plain(label)), label % 2 == 0, "{label}");
    }
    assert!(rt; !list.has(&plain(90)), "a place that is not in use");
    assert!(rt; !Ordered::over(&mut [plain(90)]).has(&plain(90)));
}

#[test]
fn events_are_ordered_by_each_field(rt: HostRuntime) {
    let mut places = [plain(90); 3];
    let mut list = Ordered::over(&mut places);
    let event = |count: u16, first: u16, second: u16| Event {
        label: 8,
        count,
        first,
        second,
    };
    assert!(rt; !list.insert(event(2, 0, 1)));
    assert!(rt; !list.insert(event(1, 65535, 65535)));
    assert!(rt; !list.insert(event(2, 0, 0)));
    assert!(rt; list.insert(event(2, 1, 0)));
    assert_eq!(rt;
        places,
        [event(1, 65535, 65535), event(2, 0, 0), event(2, 0, 1)]
    );
}

#[test]
fn rows_are_ordered_by_the_first_cell_that_differs(rt: HostRuntime) {
    let low = Row { cells: [0; 48] };
    let mut last = low;
    last.cells[47] = 1;
    let mut first = low;
    first.cells[0] = 1;
    let mut places = [first, first, first];
    let mut list = Ordered::over(&mut places);
    assert!(rt; !list.insert(first));
    assert!(rt; !list.insert(last));
    assert!(rt; !list.insert(low));
    assert_eq!(rt; places, [low, last, first]);
}
