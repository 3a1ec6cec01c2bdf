// Why estimates may be trusted.
ghost use Rattle.bounds.specs.Piles.{PilesAreSound};
ghost use Rattle.bounds.specs.Sound.{EstimatesAreFloors};

use costs::Tally;

// No chain of regressions, and so no good list, costs less than the estimate, if the bound fits and is not overdrawn.
pub fn estimates_are_floors<V: Tally>()
    ensures { EstimatesAreFloors V.Tally }
{}

// The higher of two bounds keeps the two laws where both do, and so does their sum.
pub fn piles_are_sound<V: Tally>()
    ensures { PilesAreSound V.Tally }
{}
