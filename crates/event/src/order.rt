ghost use Rattle.event.specs.Forms.{event_rank};
ghost use Rattle.event.specs.Laws.{event_order};

use crate::event::Event;
use ordered::rank::Rank;
use std::cmp::Ordering;

impl Rank for Event {
    ghost rank = { event_rank };

    ghost flip = { event_order.flip };

    ghost chain = { event_order.chain };

    ghost same = { event_order.same };

    fn compare(&self, other: &Event) -> Ordering {
        self.cmp(other)
    }
}
