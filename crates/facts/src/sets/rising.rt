// The facts of a set, one after another in rising order.
ghost use Rattle.std.specs.Prelude.{◌≡◌, false, not, ◌&&◌};
ghost use Rattle.facts.specs.Sets.{Next, size};
ghost use Rattle.std.specs.Iterator.{at_most};

use super::FactSet;

// The facts that are still to come.
#[derive(Clone, Copy)]
pub struct Rising {
    pub left: FactSet,
}

impl Iterator for Rising {
    type Item = u8;

    ghost next_gives = { λ before fact after. Next before.left fact after.left };

    ghost remaining = { λ s. at_most (size s.left) };

    fn next(&mut self) -> Option<u8> {
        let word = self.left.word;
        let fact = super::lowest_bit(word)?;
        self.left = FactSet {
            word: super::clear_bit(word, fact),
        };
        Some(fact)
    }
}
