// The way from a record through the parents to record 0: the moves of a plan, in the order of carrying out.
ghost use Rattle.std.specs.Prelude.{◌≡◌, ℕ, ◌≤◌, List, ◌++◌, length, drop};
ghost use Rattle.theory.specs.Runs.{Trail as IsTrail};
ghost use Rattle.runs.specs.Trails.{Steps};

use costs::Tally;
use theory::Record;

// The moves from here on. Among records whose parents went round in a circle it would not end.
#[derive(Drop)]
struct Trail<'r, V> {
    rows: &'r [Record<V>],
    at: u16,
}

impl<V: Tally> Iterator for Trail<'_, V> {
    type Item = u16;

    ghost next_gives = { λ before via after. (after.rows.now ≡ before.rows.now) × Steps before.rows.now before.at via after.at };

    fn next(&mut self) -> Option<u16> {
        if self.at == 0 {
            return None;
        }
        let row = self.rows.get(usize::from(self.at))?;
        self.at = row.parent;
        Some(row.via)
    }
}

// How many moves lead from a record to record 0. No way has more than there are records.
pub fn trail_length<V: Tally>(rows: &[Record<V>], from: u16) -> u16
    requires { length rows.now ≤ 65535 }
    ensures { (l : List ℕ) → IsTrail rows.now from l → length l ≤ length rows.now → result ≡ length l }
{
    let trail = Trail { rows, at: from };
    trail.take(rows.len()).count() as u16
}

// Writes these moves into the front of the list, as far as it goes; its later places stay.
pub fn copy_trail<V: Tally>(rows: &[Record<V>], from: u16, list: &mut [u16])
    ensures { (l : List ℕ) → IsTrail rows.now from l → length l ≤ length list.old → list.new ≡ l ++ drop (length l) list.old }
{
    let mut trail = Trail { rows, at: from }.take(list.len());
    // by number: a zip with `iter_mut` was tried, and after it nothing is known of what was written
    for place in 0..list.len() {
        let Some(via) = trail.next() else {
            return;
        };
        list[place] = via;
    }
}
