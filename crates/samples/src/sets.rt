// Sets of facts by their facts.
ghost use Rattle.std.specs.Prelude.{IfOk};
ghost use Rattle.samples.specs.Samples.{IsSet};

use facts::FactSet;
use std::test::Fail;

// The set of these facts.
pub fn set_of(facts: &[u8]) -> Result<FactSet, Fail>
    ensures { IfOk result (IsSet facts.now) }
{
    let mut set = FactSet::empty();
    for fact in facts {
        set = set.with(*fact).ok_or("no fact")?;
    }
    Ok(set)
}
