// The check: it turns a draft into a task, or tells the first fault.
ghost use Rattle.std.specs.Prelude.{◌≡◌, ◌≤◌, length, Decides, MatchResult};
ghost use Rattle.tasks.specs.Faults.{HeadingFault, MoveFault, Faulty, Faultless, FirstPlace, FirstFault};
ghost use Rattle.tasks.specs.Tasks.{draft_of};

use crate::draft::Draft;
use crate::moves::Move;
use crate::refusal::{Fault, Place, Refusal};
use crate::task::Task;

// The draft as a task, or its first fault.
pub fn check(draft: Draft<'_>) -> Result<Task<'_>, Fault>
    ensures { MatchResult result (λ t. draft_of t ≡ draft.entry) (FirstFault draft.entry) }
{
    seek_all(&draft)?;
    Ok(Task { draft })
}

// Each kind of fault is sought over the whole draft before the next.
fn seek_all(draft: &Draft<'_>) -> Result<(), Fault>
    ensures { MatchResult result (λ _. Faultless draft.now) (FirstFault draft.now) }
{
    seek(draft, Refusal::OutOfRange)?;
    seek(draft, Refusal::UnknownFact)?;
    seek(draft, Refusal::MakesAndBreaks)
}

// Stops at the first place with this fault.
fn seek(draft: &Draft<'_>, refusal: Refusal) -> Result<(), Fault>
    requires { (HeadingFault draft.now refusal → ⊥) → length draft.now.moves.now ≤ 1024 }
    ensures { MatchResult result (λ _. (p : Place) → Faulty draft.now refusal p → ⊥) (λ e. (e.refusal ≡ refusal) × FirstPlace draft.now refusal e.place) }
{
    if heading_fault(draft, refusal) {
        let place = Place::Heading;
        return Err(Fault { refusal, place });
    }
    for (number, m) in draft.moves.iter().enumerate() {
        if move_fault(draft, refusal, m) {
            let place = Place::Move(number as u16);
            return Err(Fault { refusal, place });
        }
    }
    Ok(())
}

// The tests of the draft itself, a line for each refusal as in the definition of its faults. Closures handed to `seek` would say the same in two places.
fn heading_fault(draft: &Draft<'_>, refusal: Refusal) -> bool
    ensures { Decides result (HeadingFault draft.now refusal) }
{
    match refusal {
        Refusal::OutOfRange => draft.facts < 1 || draft.facts > 64 || draft.moves.len() > 1024,
        Refusal::UnknownFact => draft.start.has_from(draft.facts)
            || draft.goal.has_from(draft.facts),
        Refusal::MakesAndBreaks => false,
    }
}

fn move_fault(draft: &Draft<'_>, refusal: Refusal, m: &Move) -> bool
    ensures { Decides result (MoveFault draft.now refusal m.now) }
{
    match refusal {
        Refusal::OutOfRange => m.group > 7,
        Refusal::UnknownFact => {
            m.needs.has_from(draft.facts)
                || m.makes.has_from(draft.facts)
                || m.breaks.has_from(draft.facts)
        }
        Refusal::MakesAndBreaks => m.makes.overlaps(m.breaks),
    }
}
