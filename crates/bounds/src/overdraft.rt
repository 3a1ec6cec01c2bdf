// Whether a bound charges a move more than it costs.
ghost use Rattle.std.specs.Prelude.{◌≡◌, ◌≤◌, false, length, Decides};
ghost use Rattle.costs.specs.Lists.{charge_of};
ghost use Rattle.bounds.specs.Sound.{SomeAbove, Overdrawn};

use crate::bound::Bound;
use costs::Tally;
use tasks::{Move, Task};

// Whether some move's share is above its charge.
pub fn is_overdrawn<B: Bound>(bound: &B, task: &Task<'_>) -> bool
    ensures { Decides result (Overdrawn B.Value.Tally task.now (B.Bound.shared bound.now)) }
{
    some_above(bound, task.moves())
}

// The same of a list of moves.
fn some_above<B: Bound>(bound: &B, moves: &[Move]) -> bool
    requires { length moves.now ≤ 1024 }
    ensures { Decides result (SomeAbove B.Value.Tally moves.now (B.Bound.shared bound.now)) }
{
    for (number, m) in moves.iter().enumerate() {
        if is_above(bound, number as u16, m) {
            return true;
        }
    }
    false
}

// Whether the share of the move of this number is above what the move costs.
fn is_above<B: Bound>(bound: &B, number: u16, m: &Move) -> bool
    ensures { Decides result (B.Value.Tally.at_most (B.Bound.shared bound.now number) (charge_of B.Value.Tally m.now) ≡ false) }
{
    !bound
        .share(number)
        .at_most(B::Value::charge(m.price, m.group))
}
