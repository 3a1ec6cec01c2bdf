// Minutes as a tally: costs are added up, and the sum stays at the largest where it would pass it.
ghost use Rattle.std.specs.Prelude.{◌≡◌};
ghost use Rattle.costs.specs.declared.minutes.Minutes.{Minutes};
ghost use Rattle.costs.specs.Minutes.{held, no_longer, sum};
ghost use Rattle.std.proofs.Common.{arith};
ghost use Rattle.std.proofs.lemmas.Bool.Decides.{nat_tests};
ghost use Rattle.costs.specs.Totals.{same};

use crate::minutes::Minutes;
use crate::tally::Tally;

impl Tally for Minutes {
    ghost at_most = { no_longer };

    ghost nil = { held 0 };

    ghost join = { sum };

    ghost charge = { λ price group. held price };

    ghost lawful = { record {
      transitive = λ u v w p q. Prim.grind (arith, nat_tests);
      total = λ u v p. Prim.grind (arith, nat_tests);
      antisymmetric = λ u v p q. same u v (Prim.grind (arith, nat_tests));
      least = λ v. Prim.grind (arith, nat_tests);
      associative = λ u v w. same _ _ (omega arith);
      commutative = λ u v. same _ _ (omega arith);
      neutral = λ v. same _ _ (omega arith);
      monotone = λ u v w p. Prim.grind (arith, nat_tests);
    } };

    fn nil() -> Self {
        Minutes { total: 0 }
    }

    fn at_most(self, other: Self) -> bool {
        self.total <= other.total
    }

    fn join(self, other: Self) -> Self {
        Minutes {
            total: self.total.saturating_add(other.total),
        }
    }

    fn charge(price: u16, _group: u8) -> Self {
        Minutes {
            total: u32::from(price),
        }
    }
}
