ghost use Rattle.std.specs.Ordering.{nat_cmp as rank};
ghost use Rattle.std.specs.Cmp.{nat_cmp_total};
ghost use Rattle.std.proofs.lemmas.Map.Lookups.{exact_unsigned};

use crate::rank::Rank;
use std::cmp::Ordering;

impl Rank for u16 {
    ghost rank = { rank };

    ghost flip = { nat_cmp_total.antisymm };

    ghost chain = { nat_cmp_total.trans };

    ghost same = { exact_unsigned };

    fn compare(&self, other: &u16) -> Ordering {
        self.cmp(other)
    }
}
