// A set of facts. All contracts speak of it by membership alone, so what lies behind can change.
ghost use Rattle.std.specs.Prelude.{◌≡◌, ℕ, ◌^◌, ◌<◌, ◌≤◌, true, false, not, ◌&&◌, ◌||◌, T, List, length, Decides, MatchOption, ◌==◌, count_ones};
ghost use Rattle.facts.specs.Words.{bit};
ghost use Rattle.facts.specs.Sets.{has, HasFrom, Within, Overlap, Lists, EqualFactsEqualSets};

use rising::Rising;

pub mod rising;

// A set of facts; a fact is a number from 0 to 63. Bit f of the word says whether fact f is in it.
#[derive(Clone, Copy, PartialEq, Eq, Debug)]
pub struct FactSet {
    word: u64,
}

impl FactSet {
    // The set with no fact.
    pub fn empty() -> FactSet
        ensures { (f : ℕ) → has result f ≡ false }
    {
        FactSet { word: no_bits() }
    }

    // The set together with a fact, or `None` for a number that is no fact.
    pub fn with(self, fact: u8) -> Option<FactSet>
        ensures { MatchOption result (64 ≤ fact) (λ s. (fact < 64) × ((f : ℕ) → has s f ≡ (has self f || f == fact))) }
    {
        if fact >= 64 {
            return None;
        }
        Some(FactSet {
            word: set_bit(self.word, fact),
        })
    }

    // Whether the fact is in the set.
    pub fn has(self, fact: u8) -> bool
        ensures { result ≡ has self fact }
    {
        get_bit(self.word, fact)
    }

    // Whether some fact of the set is `limit` or more.
    pub fn has_from(self, limit: u8) -> bool
        ensures { Decides result (HasFrom self limit) }
    {
        any_from(self.word, limit)
    }

    // Whether the set lies within the other: each of its facts is one of the other's.
    pub fn is_within(self, other: FactSet) -> bool
        ensures { Decides result (Within self other) }
    {
        covered(self.word, other.word)
    }

    // Whether some fact is in both.
    pub fn overlaps(self, other: FactSet) -> bool
        ensures { Decides result (Overlap self other) }
    {
        share(self.word, other.word)
    }

    // The facts of either.
    pub fn union(self, other: FactSet) -> FactSet
        ensures { (f : ℕ) → has result f ≡ (has self f || has other f) }
    {
        FactSet {
            word: either(self.word, other.word),
        }
    }

    // The facts that the other lacks.
    pub fn without(self, other: FactSet) -> FactSet
        ensures { (f : ℕ) → has result f ≡ (has self f && not (has other f)) }
    {
        FactSet {
            word: less(self.word, other.word),
        }
    }

    // How many facts the set has.
    pub fn count(self) -> u32
        ensures { (facts : List ℕ) × Lists self facts × (result ≡ length facts) }
    {
        count_facts(self)
    }

    // The facts in rising order.
    pub fn iter(self) -> Rising
        ensures { result.left ≡ self }
    {
        Rising { left: self }
    }
}

// Sets with the same facts are the same set.
pub fn equal_facts_equal_sets()
    ensures { EqualFactsEqualSets }
{}

// One word of bits, and what each operation does to every bit.

fn no_bits() -> u64
    ensures { (f : ℕ) → bit result f ≡ false }
{
    0
}

fn get_bit(word: u64, place: u8) -> bool
    ensures { result ≡ bit word place }
{
    place < 64 && (word >> place) % 2 == 1
}

fn any_from(word: u64, limit: u8) -> bool
    ensures { Decides result ((f : ℕ) × T (bit word f) × (limit ≤ f)) }
{
    limit < 64 && word >> limit != 0
}

fn set_bit(word: u64, place: u8) -> u64
    requires { place < 64 }
    ensures { (f : ℕ) → bit result f ≡ (bit word f || f == place) }
{
    word | (1 << place)
}

fn covered(word: u64, by: u64) -> bool
    ensures { Decides result ((f : ℕ) → T (bit word f) → T (bit by f)) }
{
    word & by == word
}

fn share(word: u64, other: u64) -> bool
    ensures { Decides result ((f : ℕ) × T (bit word f) × T (bit other f)) }
{
    word & other != 0
}

fn either(word: u64, other: u64) -> u64
    ensures { (f : ℕ) → bit result f ≡ (bit word f || bit other f) }
{
    word | other
}

fn less(word: u64, other: u64) -> u64
    ensures { (f : ℕ) → bit result f ≡ (bit word f && not (bit other f)) }
{
    word ^ (word & other)
}

fn count_facts(set: FactSet) -> u32
    ensures { (facts : List ℕ) × Lists set facts × (result ≡ length facts) }
{
    set.word.count_ones()
}

fn lowest_bit(word: u64) -> Option<u8>
    ensures { MatchOption result ((f : ℕ) → bit word f ≡ false) (λ p. (p < 64) × T (bit word p) × ((f : ℕ) → T (bit word f) → p ≤ f)) }
{
    if word == 0 {
        return None;
    }
    Some(word.trailing_zeros() as u8)
}

fn clear_bit(word: u64, place: u8) -> u64
    requires { place < 64 }
    ensures cleared { (f : ℕ) → bit result f ≡ (bit word f && not (f == place)) }
    ensures fewer { T (bit word place) → count_ones result < count_ones word }
{
    less(word, 1 << place)
}
