// The worst single price as a tally: two costs together are the larger of them.
ghost use Rattle.costs.specs.Worst.{no_worse, single, worse};
ghost use Rattle.std.proofs.Common.{rules};

use crate::tally::Tally;

// The highest price, 0 to 65,535.
#[derive(Clone, Copy, PartialEq, Eq, Debug)]
pub struct Worst {
    pub highest: u16,
}

impl Tally for Worst {
    ghost at_most = { no_worse };

    ghost nil = { single 0 };

    ghost join = { worse };

    ghost charge = { λ price group. single price };

    ghost lawful = { Prim.search rules };

    fn nil() -> Self {
        Worst { highest: 0 }
    }

    fn at_most(self, other: Self) -> bool {
        self.highest <= other.highest
    }

    fn join(self, other: Self) -> Self {
        Worst {
            highest: self.highest.max(other.highest),
        }
    }

    fn charge(price: u16, _group: u8) -> Self {
        Worst { highest: price }
    }
}
