use crate::{minutes, worst};
use bounds::{Blind, Bound, Higher, Sum, is_overdrawn};
use costs::{Estimate, Minutes, Worst};
use facts::FactSet;
use samples::{draft_of, move_of, set_of, task_of, two_moves};
use std::marker::PhantomData;
use std::process::Abort;
use std::test::Fail;
use tables::{One, Pair, Single, Two, work_out};
use tasks::{Draft, Move};

// The single table's estimate of the goal, with these groups counted.
fn single(rt: &impl Abort, groups: u8) -> Result<Estimate<Minutes>, Fail> {
    let moves = two_moves()?;
    let task = task_of(draft_of(&moves)?)?;
    let mut table: [Estimate<Minutes>; 3] = [None; 3];
    assert!(rt; work_out::<One, Minutes>(&task, groups, &mut table).is_ok());
    Ok(Single::of(&task, groups, &table).estimate(task.goal()))
}

// The pair table's estimate of a set, with all groups counted.
fn pair(rt: &impl Abort, set: FactSet) -> Result<Estimate<Minutes>, Fail> {
    let moves = two_moves()?;
    let task = task_of(draft_of(&moves)?)?;
    let mut table: [Estimate<Minutes>; 9] = [None; 9];
    assert!(rt; work_out::<Two, Minutes>(&task, 255, &mut table).is_ok());
    Ok(Pair::of(&task, 255, &table).estimate(set))
}

// The sum of two single tables: its estimate of the goal, and whether it is overdrawn.
fn sum(rt: &impl Abort, one: u8, other: u8) -> Result<(Estimate<Minutes>, bool), Fail> {
    let moves = two_moves()?;
    let task = task_of(draft_of(&moves)?)?;
    let mut first: [Estimate<Minutes>; 3] = [None; 3];
    let mut second: [Estimate<Minutes>; 3] = [None; 3];
    assert!(rt; work_out::<One, Minutes>(&task, one, &mut first).is_ok());
    assert!(rt; work_out::<One, Minutes>(&task, other, &mut second).is_ok());
    let both = Sum {
        one: Single::of(&task, one, &first),
        other: Single::of(&task, other, &second),
    };
    assert!(rt; both.fits(&task));
    Ok((both.estimate(task.goal()), is_overdrawn(&both, &task)))
}

#[test]
fn estimates_of_the_goal(rt: HostRuntime) -> Result<(), Fail> {
    assert_eq!(rt; single(&rt, 255)?, Some(minutes(15)));
    assert_eq!(rt; sum(&rt, 1, 2)?, (Some(minutes(19)), false));
    assert_eq!(rt; sum(&rt, 255, 2)?, (Some(minutes(19)), true));
    assert_eq!(rt; pair(&rt, set_of(&[1, 2])?)?, Some(minutes(19)));
    assert_eq!(rt; pair(&rt, set_of(&[3])?)?, None);
    assert_eq!(rt; pair(&rt, FactSet::empty())?, Some(minutes(0)));
    Ok(())
}

#[test]
fn sums_in_worst(rt: HostRuntime) -> Result<(), Fail> {
    let moves = two_moves()?;
    let task = task_of(draft_of(&moves)?)?;
    let mut all: [Estimate<Worst>; 3] = [None; 3];
    let mut second: [Estimate<Worst>; 3] = [None; 3];
    assert!(rt; work_out::<One, Worst>(&task, 255, &mut all).is_ok());
    assert!(rt; work_out::<One, Worst>(&task, 2, &mut second).is_ok());
    let both = Sum {
        one: Single::of(&task, 255, &all),
        other: Single::of(&task, 2, &second),
    };
    assert!(rt; both.fits(&task) && !is_overdrawn(&both, &task));
    assert_eq!(rt; both.estimate(task.goal()), Some(worst(15)));
    Ok(())
}

// The pair table's estimate of the goal in worst, with these groups counted.
fn worst_pair(rt: &impl Abort, groups: u8) -> Result<Estimate<Worst>, Fail> {
    let moves = two_moves()?;
    let task = task_of(draft_of(&moves)?)?;
    let mut table: [Estimate<Worst>; 9] = [None; 9];
    assert!(rt; work_out::<Two, Worst>(&task, groups, &mut table).is_ok());
    Ok(Pair::of(&task, groups, &table).estimate(task.goal()))
}

#[test]
fn pairs_in_worst(rt: HostRuntime) -> Result<(), Fail> {
    assert_eq!(rt; worst_pair(&rt, 255)?, Some(worst(15)));
    assert_eq!(rt; worst_pair(&rt, 2)?, Some(worst(4)));
    Ok(())
}

#[test]
fn a_pile_of_bounds(rt: HostRuntime) -> Result<(), Fail> {
    let moves = two_moves()?;
    let task = task_of(draft_of(&moves)?)?;
    let mut table: [Estimate<Minutes>; 9] = [None; 9];
    assert!(rt; work_out::<Two, Minutes>(&task, 255, &mut table).is_ok());
    let pair = Pair::of(&task, 255, &table);
    let blind = Blind { of: PhantomData };
    let pile = Higher {
        one: Sum {
            one: blind,
            other: Higher {
                one: blind,
                other: pair,
            },
        },
        other: blind,
    };
    assert!(rt; pile.fits(&task) && !is_overdrawn(&pile, &task));
    assert_eq!(rt; pile.estimate(task.goal()), Some(minutes(19)));
    Ok(())
}

#[test]
fn moves_that_need_each_other(rt: HostRuntime) -> Result<(), Fail> {
    let free = Move {
        price: 0,
        ..move_of(&[0], &[1], &[])?
    };
    let moves = [
        free,
        Move {
            price: 0,
            ..move_of(&[1], &[0], &[])?
        },
    ];
    let none = FactSet::empty();
    let task = task_of(Draft {
        facts: 2,
        start: none,
        goal: none,
        moves: &moves,
    })?;
    let mut table: [Estimate<Minutes>; 2] = [None; 2];
    assert!(rt; work_out::<One, Minutes>(&task, 255, &mut table).is_ok());
    assert_eq!(rt; table, [None, None]);
    Ok(())
}

// Whether a single table fits the small task.
fn fits(table: [Estimate<Minutes>; 3]) -> Result<bool, Fail> {
    let moves = two_moves()?;
    let task = task_of(draft_of(&moves)?)?;
    Ok(Single::of(&task, 255, &table).fits(&task))
}

// Whether a pair table does.
fn pairs_fit(table: [Estimate<Minutes>; 9]) -> Result<bool, Fail> {
    let moves = two_moves()?;
    let task = task_of(draft_of(&moves)?)?;
    Ok(Pair::of(&task, 255, &table).fits(&task))
}

fn value(total: u32) -> Estimate<Minutes> {
    Some(minutes(total))
}

#[test]
fn tables_that_break_a_rule(rt: HostRuntime) -> Result<(), Fail> {
    assert!(rt; fits([value(0), value(15), value(4)])?);
    assert!(rt; fits([value(0), value(14), value(0)])?);
    assert!(rt; !fits([value(1), value(15), value(4)])?);
    assert!(rt; !fits([value(0), value(16), value(4)])?);
    let never: Estimate<Minutes> = None;
    let [a, b, c, d, e, f, g, h, i] = [
        value(0),
        never,
        value(4),
        never,
        value(15),
        value(19),
        value(4),
        value(19),
        value(4),
    ];
    assert!(rt; pairs_fit([a, b, c, d, e, f, g, h, i])?);
    assert!(rt; !pairs_fit([value(1), b, c, d, e, f, g, h, i])?);
    assert!(rt; !pairs_fit([a, b, c, d, value(16), f, g, h, i])?);
    assert!(rt; !pairs_fit([a, b, c, d, e, value(14), g, value(14), i])?);
    assert!(rt; !pairs_fit([a, b, c, d, e, f, g, value(18), i])?);
    Ok(())
}

// Whether the single table of the small task fits another one.
fn fits_other(rt: &impl Abort, draft: Draft<'_>) -> Result<bool, Fail> {
    let moves = two_moves()?;
    let task = task_of(draft_of(&moves)?)?;
    let other = task_of(draft)?;
    let mut table: [Estimate<Minutes>; 3] = [None; 3];
    assert!(rt; work_out::<One, Minutes>(&task, 255, &mut table).is_ok());
    Ok(Single::of(&task, 255, &table).fits(&other))
}

#[test]
fn other_tasks(rt: HostRuntime) -> Result<(), Fail> {
    let moves = two_moves()?;
    let draft = draft_of(&moves)?;
    assert!(rt; fits_other(&rt, draft)?);
    assert!(rt;
        fits_other(
            &rt,
            Draft {
                goal: FactSet::empty(),
                ..draft
            }
        )?
    );
    assert!(rt; !fits_other(&rt, Draft { facts: 4, ..draft })?);
    assert!(rt;
        !fits_other(
            &rt,
            Draft {
                start: FactSet::empty(),
                ..draft
            }
        )?
    );
    let dearer = [
        Move {
            price: 16,
            ..moves[0]
        },
        moves[1],
    ];
    assert!(rt;
        !fits_other(
            &rt,
            Draft {
                moves: &dearer,
                ..draft
            }
        )?
    );
    Ok(())
}

#[test]
fn short_tables(rt: HostRuntime) -> Result<(), Fail> {
    let moves = two_moves()?;
    let task = task_of(draft_of(&moves)?)?;
    let mut table = [value(0), value(15)];
    assert!(rt; work_out::<One, Minutes>(&task, 255, &mut table).is_err());
    assert_eq!(rt; Single::of(&task, 255, &table).estimate(task.goal()), None);
    Ok(())
}
