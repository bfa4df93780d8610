ghost use Rattle.row.specs.Rows.{row_rank};
ghost use Rattle.row.specs.Laws.{row_order};

use crate::row::Row;
use ordered::rank::Rank;
use std::cmp::Ordering;

impl Rank for Row {
    ghost rank = { row_rank };

    ghost flip = { row_order.flip };

    ghost chain = { row_order.chain };

    ghost same = { row_order.same };

    fn compare(&self, other: &Row) -> Ordering {
        self.cmp(other)
    }
}
