// A tally is a kind of cost: an order, a least value, a join and the charge for a move.
ghost use Rattle.std.specs.Prelude.{◌≡◌, ℕ, Bool};
ghost use Rattle.costs.specs.Choices.{Larger, Smaller, larger_of, smaller_of};
ghost use Rattle.costs.specs.Laws.{Lawful};

pub trait Tally: Copy {
    ghost at_most: { Self → Self → Bool };

    ghost nil: { Self };

    ghost join: { Self → Self → Self };

    ghost charge: { ℕ → ℕ → Self };

    // The cost of nothing.
    fn nil() -> Self
        ensures { result ≡ nil };

    // Whether this cost is no more than `other`.
    fn at_most(self, other: Self) -> bool
        ensures { result ≡ at_most self other };

    // What the two cost together.
    fn join(self, other: Self) -> Self
        ensures { result ≡ join self other };

    // What a move of this price and group costs.
    fn charge(price: u16, group: u8) -> Self
        ensures { result ≡ charge price group };

    // The larger of the two.
    fn larger(self, other: Self) -> Self
        ensures is { result ≡ larger_of at_most self other }
        ensures larger { Larger at_most self other result }
    {
        if self.at_most(other) { other } else { self }
    }

    // The smaller of the two.
    fn smaller(self, other: Self) -> Self
        ensures is { result ≡ smaller_of at_most self other }
        ensures smaller { Smaller at_most self other result }
    {
        if self.at_most(other) { self } else { other }
    }

    ghost lawful: { Lawful at_most nil join };
}
