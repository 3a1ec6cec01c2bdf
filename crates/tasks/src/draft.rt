use crate::moves::Move;
use facts::FactSet;

// A planning problem as it is written down, checked by nobody yet.
#[derive(Clone, Copy)]
pub struct Draft<'a> {
    // how many facts there are: 1 to 64, numbered from 0
    pub facts: u8,
    pub start: FactSet,
    pub goal: FactSet,
    // at most 1,024, numbered from 0
    pub moves: &'a [Move],
}
