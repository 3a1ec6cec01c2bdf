// Numbers in base ten.
ghost use Rattle.std.specs.Prelude.{◌≡◌, ℕ, true, MatchResult};
ghost use Rattle.taskfile.specs.Tellings.{TellsNumber};
ghost use Rattle.taskfile.specs.Values.{Numeral};

use crate::keys::{Key, Value};
use crate::misread::Flaw;
use crate::values::FromValue;

// A number has at most so many digits.
const DIGITS: usize = 5;

// The number that the bytes write.
pub fn number(v: &[u8]) -> Result<u32, Flaw>
    ensures { MatchResult result (λ n. Numeral v.now n) (λ f. (f ≡ Flaw.Malformed) × ((n : ℕ) → Numeral v.now n → ⊥)) }
{
    match v {
        [] | [b'0', _, ..] => return Err(Flaw::Malformed),
        _ if v.len() > DIGITS => return Err(Flaw::Malformed),
        _ => {}
    }
    // no chain: the bound on the sum needs an invariant
    let mut n = 0;
    for b in v {
        if !b.is_ascii_digit() {
            return Err(Flaw::Malformed);
        }
        n = n * 10 + u32::from(*b - b'0');
    }
    Ok(n)
}

impl FromValue for u32 {
    ghost single = { true };

    ghost tells = { TellsNumber };

    // The number, in the range of the key.
    fn from_value(key: Key, value: Value<'_>) -> Result<u32, Flaw> {
        let Value::Number(v) = value else {
            unreachable!();
        };
        let n = number(v)?;
        if !key.allows(n) {
            return Err(Flaw::OutOfRange);
        }
        Ok(n)
    }
}
