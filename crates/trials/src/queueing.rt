use crate::{blank, shown};
use bounds::Blind;
use costs::{Estimate, Minutes, Worst};
use facts::FactSet;
use queues::{Call, Told, queue};
use samples::{draft_of, set_of, task_of, two_moves};
use std::marker::PhantomData;
use std::process::Abort;
use std::test::Fail;
use tables::{Pair, Two, work_out};
use tasks::Draft;
use theory::{Kind, Refusal};

// Makes these calls of a search that knows nothing, over a table of so many places, at most four.
fn blindly(
    rt: &impl Abort,
    start: &[u8],
    goal: &[u8],
    places: usize,
    calls: &[Call],
    replies: &mut [Result<Told<Minutes>, Refusal>],
    list: &mut [u16],
) -> Result<(), Fail> {
    let moves = two_moves()?;
    let draft = Draft {
        facts: 3,
        start: set_of(start)?,
        goal: set_of(goal)?,
        moves: &moves,
    };
    let task = task_of(draft)?;
    assert!(rt; places <= 4);
    let mut table = [blank(); 4];
    let bound = Blind { of: PhantomData };
    let _ = queue(task, &bound, &mut table[0..places], calls, replies, list);
    Ok(())
}

// The reply of one run.
fn one_run(
    rt: &impl Abort,
    start: &[u8],
    goal: &[u8],
    places: usize,
    grant: u32,
) -> Result<Result<Told<Minutes>, Refusal>, Fail> {
    let mut replies = [Err(Refusal::Misfit)];
    blindly(
        rt,
        start,
        goal,
        places,
        &[Call::Run(grant)],
        &mut replies,
        &mut [],
    )?;
    Ok(replies[0])
}

#[test]
fn four_runs_and_what_is_refused(rt: HostRuntime) -> Result<(), Fail> {
    let calls = [
        Call::Run(1),
        Call::ReadOut(3),
        Call::Run(1),
        Call::Run(65_537),
        Call::Run(0),
        Call::Run(1),
        Call::ReadOut(1),
        Call::ReadOut(9),
        Call::Run(5),
    ];
    let mut told = [Err(Refusal::Misfit); 9];
    let mut list = [8, 8, 8];
    blindly(&rt, &[0], &[1, 2], 4, &calls, &mut told, &mut list)?;
    assert_eq!(rt; shown(told[0]), ("pending", 1, 4, 0));
    assert_eq!(rt; shown(told[1]), ("refused", 0, 12, 0));
    assert_eq!(rt; shown(told[2]), ("pending", 1, 15, 0));
    assert_eq!(rt; shown(told[3]), ("refused", 0, 11, 0));
    assert_eq!(rt; shown(told[4]), ("pending", 0, 15, 0));
    assert_eq!(rt; shown(told[5]), ("plan", 1, 19, 2));
    assert_eq!(rt; shown(told[6]), ("refused", 0, 13, 0));
    assert_eq!(rt; shown(told[7]), ("read", 0, 0, 2));
    assert_eq!(rt; shown(told[8]), ("plan", 0, 19, 2));
    assert_eq!(rt; list, [0, 1, 8]);
    Ok(())
}

#[test]
fn a_full_table(rt: HostRuntime) -> Result<(), Fail> {
    assert_eq!(rt;
        shown(one_run(&rt, &[0], &[1, 2], 3, 9)?),
        ("full", 1, 4, 0)
    );
    assert_eq!(rt;
        shown(one_run(&rt, &[0], &[1, 2], 2, 9)?),
        ("full", 0, 0, 0)
    );
    assert_eq!(rt;
        shown(one_run(&rt, &[0], &[1, 2], 0, 9)?),
        ("refused", 0, 8, 0)
    );
    Ok(())
}

#[test]
fn nothing_to_do_and_nothing_to_be_done(rt: HostRuntime) -> Result<(), Fail> {
    assert_eq!(rt; shown(one_run(&rt, &[0], &[], 4, 0)?), ("plan", 0, 0, 0));
    assert_eq!(rt; shown(one_run(&rt, &[], &[1, 2], 4, 4)?), ("none", 4, 0, 0));
    assert_eq!(rt;
        shown(one_run(&rt, &[], &[1, 2], 4, 3)?),
        ("pending", 3, 19, 0)
    );
    Ok(())
}

// As many calls are made as there are places for their replies.
#[test]
fn fewer_replies_than_calls(rt: HostRuntime) -> Result<(), Fail> {
    let calls = [Call::Run(1), Call::Run(9)];
    let mut told = [Err(Refusal::Misfit)];
    blindly(&rt, &[0], &[1, 2], 4, &calls, &mut told, &mut [])?;
    assert_eq!(rt; shown(told[0]), ("pending", 1, 4, 0));
    Ok(())
}

#[test]
fn the_dearest_move_counts(rt: HostRuntime) -> Result<(), Fail> {
    let moves = two_moves()?;
    let task = task_of(draft_of(&moves)?)?;
    let mut table = [blank::<Worst>(); 4];
    let bound = Blind { of: PhantomData };
    let mut told = [Err(Refusal::Misfit); 2];
    let mut list = [9, 9];
    let calls = [Call::Run(4), Call::ReadOut(2)];
    let _ = queue(task, &bound, &mut table, &calls, &mut told, &mut list);
    let Ok(Told::Ran(reply)) = told[0] else {
        return Err(Fail::new("no run"));
    };
    assert!(rt; reply.kind == Kind::Plan);
    assert_eq!(rt; reply.value.highest, 15);
    assert_eq!(rt; list, [0, 1]);
    Ok(())
}

// The pair table sees at once that nothing can be done.
#[test]
fn a_bound_that_knows(rt: HostRuntime) -> Result<(), Fail> {
    let moves = two_moves()?;
    let task = task_of(Draft {
        start: FactSet::empty(),
        ..draft_of(&moves)?
    })?;
    let mut pairs: [Estimate<Minutes>; 9] = [None; 9];
    assert!(rt; work_out::<Two, Minutes>(&task, 255, &mut pairs).is_ok());
    let bound = Pair::of(&task, 255, &pairs);
    let mut table = [blank(); 4];
    let mut told = [Err(Refusal::Misfit)];
    let _ = queue(
        task,
        &bound,
        &mut table,
        &[Call::Run(0)],
        &mut told,
        &mut [],
    );
    assert_eq!(rt; shown(told[0]), ("none", 0, 0, 0));
    Ok(())
}
