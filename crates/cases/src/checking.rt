use facts::FactSet;
use samples::{draft_of, move_of, set_of, task_of};
use std::test::Fail;
use tasks::{Arrival, Draft, Fault, Move, Place, Refusal, Stuck, check};

// What is at fault in a draft, as its check tells.
fn fault(refusal: Refusal, place: Place) -> Option<Fault> {
    Some(Fault { refusal, place })
}

#[test]
fn lowest_number_first(rt: HostRuntime) -> Result<(), Fail> {
    let fine = move_of(&[0], &[1], &[0])?;
    let both = move_of(&[0], &[1], &[1])?;
    let strange = move_of(&[3], &[1], &[])?;
    let grouped = Move { group: 8, ..fine };
    let start = set_of(&[0])?;
    let goal = set_of(&[1])?;
    assert_eq!(rt;
        check(Draft {
            facts: 3,
            start,
            goal,
            moves: &[both, strange, fine, grouped],
        })
        .err(),
        fault(Refusal::OutOfRange, Place::Move(3))
    );
    assert_eq!(rt;
        check(Draft {
            facts: 3,
            start,
            goal,
            moves: &[both, fine, strange, both],
        })
        .err(),
        fault(Refusal::UnknownFact, Place::Move(2))
    );
    assert_eq!(rt;
        check(Draft {
            facts: 3,
            start,
            goal: set_of(&[3])?,
            moves: &[both, strange],
        })
        .err(),
        fault(Refusal::UnknownFact, Place::Heading)
    );
    assert_eq!(rt;
        check(Draft {
            facts: 3,
            start,
            goal,
            moves: &[fine, both, both],
        })
        .err(),
        fault(Refusal::MakesAndBreaks, Place::Move(1))
    );
    assert_eq!(rt;
        check(Draft {
            facts: 3,
            start,
            goal,
            moves: &[fine, fine],
        })
        .err(),
        None
    );
    Ok(())
}

#[test]
fn numbers_told(rt: HostRuntime) {
    assert_eq!(rt; Refusal::OutOfRange.number(), 3);
    assert_eq!(rt; Refusal::UnknownFact.number(), 5);
    assert_eq!(rt; Refusal::MakesAndBreaks.number(), 6);
    assert_eq!(rt; Place::Heading.number(), 65_535);
    assert_eq!(rt; Place::Move(3).number(), 3);
}

#[test]
fn numbers_of_facts(rt: HostRuntime) -> Result<(), Fail> {
    let start = set_of(&[63])?;
    let goal = FactSet::empty();
    assert_eq!(rt;
        check(Draft {
            facts: 64,
            start,
            goal,
            moves: &[],
        })
        .err(),
        None
    );
    assert_eq!(rt;
        check(Draft {
            facts: 63,
            start,
            goal,
            moves: &[],
        })
        .err(),
        fault(Refusal::UnknownFact, Place::Heading)
    );
    assert_eq!(rt;
        check(Draft {
            facts: 65,
            start,
            goal,
            moves: &[],
        })
        .err(),
        fault(Refusal::OutOfRange, Place::Heading)
    );
    assert_eq!(rt;
        check(Draft {
            facts: 0,
            start,
            goal,
            moves: &[],
        })
        .err(),
        fault(Refusal::OutOfRange, Place::Heading)
    );
    Ok(())
}

#[test]
fn numbers_of_moves(rt: HostRuntime) -> Result<(), Fail> {
    let start = FactSet::empty();
    let goal = FactSet::empty();
    let m = move_of(&[], &[0], &[])?;
    assert_eq!(rt;
        check(Draft {
            facts: 1,
            start,
            goal,
            moves: &[m; 1024],
        })
        .err(),
        None
    );
    assert_eq!(rt;
        check(Draft {
            facts: 1,
            start,
            goal,
            moves: &[m; 1025],
        })
        .err(),
        fault(Refusal::OutOfRange, Place::Heading)
    );
    Ok(())
}

// The end of a list that leads to these facts; whether the goal stands there.
fn arrival(facts: &[u8], goal: bool) -> Result<Result<Arrival, Stuck>, Fail> {
    Ok(Ok(Arrival {
        facts: set_of(facts)?,
        goal,
    }))
}

#[test]
fn lists_carried_out(rt: HostRuntime) -> Result<(), Fail> {
    let moves = [move_of(&[0], &[1], &[0])?, move_of(&[], &[2], &[])?];
    let task = task_of(draft_of(&moves)?)?;
    assert_eq!(rt; task.carry(&[0, 1]), arrival(&[1, 2], true)?);
    assert_eq!(rt; task.carry(&[1]), arrival(&[0, 2], false)?);
    assert_eq!(rt; task.carry(&[]), arrival(&[0], false)?);
    assert_eq!(rt; task.carry(&[1, 0, 0]), Err(Stuck { at: 2 }));
    assert_eq!(rt; task.carry(&[2]), Err(Stuck { at: 0 }));
    Ok(())
}

#[test]
fn empty_goal(rt: HostRuntime) -> Result<(), Fail> {
    let draft = Draft {
        facts: 1,
        start: set_of(&[0])?,
        goal: FactSet::empty(),
        moves: &[],
    };
    let task = task_of(draft)?;
    assert_eq!(rt; task.carry(&[]), arrival(&[0], true)?);
    Ok(())
}

#[test]
fn regressed(rt: HostRuntime) -> Result<(), Fail> {
    let m = move_of(&[0], &[1], &[2])?;
    assert_eq!(rt; m.regress(set_of(&[1, 3])?), Some(set_of(&[0, 3])?));
    assert_eq!(rt; m.regress(set_of(&[3])?), None);
    assert_eq!(rt; m.regress(set_of(&[1, 2])?), None);
    assert_eq!(rt; m.carry(set_of(&[0, 2])?), Some(set_of(&[0, 1])?));
    assert_eq!(rt; m.carry(set_of(&[2])?), None);
    Ok(())
}
