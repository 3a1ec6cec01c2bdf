// Sets, written as rising numbers joined by commas.
ghost use Rattle.std.specs.Prelude.{◌≡◌, ℕ, ◌≤◌, false, MatchResult};
ghost use Rattle.taskfile.specs.Listings.{Joins, TookItem};
ghost use Rattle.taskfile.specs.Tellings.{TellsSet};
ghost use Rattle.taskfile.specs.Values.{Numeral, SetRead};

use crate::keys::{Key, Value};
use crate::misread::Flaw;
use crate::numbers::number;
use crate::values::FromValue;
use facts::FactSet;

// A set as far as it is read: the least number that may come next, and its facts, `None` once a number was no fact.
#[derive(Clone, Copy)]
struct Listing {
    least: u32,
    facts: Option<FactSet>,
}

impl Listing {
    // With the number that `item` writes.
    fn with(self, item: &[u8]) -> Result<Listing, Flaw>
        ensures { MatchResult result (λ s. TookItem self item.now s) (λ f. (f ≡ Flaw.Malformed) × ((n : ℕ) → Numeral item.now n → self.least ≤ n → ⊥)) }
    {
        let n = number(item)?;
        if n < self.least {
            return Err(Flaw::Malformed);
        }
        Ok(Listing {
            least: n + 1,
            facts: joined(self.facts, n),
        })
    }
}

// The facts with one more, if the number is a fact.
fn joined(facts: Option<FactSet>, n: u32) -> Option<FactSet>
    ensures { Joins n facts result }
{
    facts?.with(u8::try_from(n).ok()?)
}

// The facts of the set that the bytes write.
pub fn set(v: &[u8]) -> Result<FactSet, Flaw>
    ensures { SetRead v.now result }
{
    if v.is_empty() {
        return Ok(FactSet::empty());
    }
    let mut read = Listing {
        least: 0,
        facts: Some(FactSet::empty()),
    };
    for item in v.split(|b| *b == b',') {
        read = read.with(item)?;
    }
    read.facts.ok_or(Flaw::OutOfRange)
}

impl FromValue for FactSet {
    ghost single = { false };

    ghost tells = { TellsSet };

    fn from_value(_key: Key, value: Value<'_>) -> Result<FactSet, Flaw> {
        let Value::Set(v) = value else {
            unreachable!();
        };
        set(v)
    }
}
