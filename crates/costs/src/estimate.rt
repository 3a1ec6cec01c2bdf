// An estimate is a value of a tally, or `None` for never, which stands above all values.
ghost use Rattle.std.specs.Prelude.{Some};
ghost use Rattle.costs.specs.Estimates.{not_above, join_each};
ghost use Rattle.costs.specs.EstimatesLemmas.{estimates_lawful};

use crate::tally::Tally;

pub type Estimate<V> = Option<V>;

impl<V: Tally> Tally for Option<V> {
    ghost at_most = { not_above V.Tally.at_most };

    ghost nil = { Some V.Tally.nil };

    ghost join = { join_each V.Tally.join };

    ghost charge = { λ price group. Some (V.Tally.charge price group) };

    ghost lawful = { estimates_lawful V.Tally.lawful };

    fn nil() -> Self {
        Some(V::nil())
    }

    fn at_most(self, other: Self) -> bool {
        match (self, other) {
            (_, None) => true,
            (None, Some(_)) => false,
            (Some(u), Some(v)) => u.at_most(v),
        }
    }

    fn join(self, other: Self) -> Self {
        match (self, other) {
            (Some(u), Some(v)) => Some(u.join(v)),
            _ => None,
        }
    }

    fn charge(price: u16, group: u8) -> Self {
        Some(V::charge(price, group))
    }
}
