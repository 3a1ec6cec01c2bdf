use crate::blank;
use bounds::{Blind, Sum};
use costs::{Estimate, Minutes, Tally};
use samples::{draft_of, set_of, task_of, two_moves};
use search::Search;
use std::marker::PhantomData;
use std::test::Fail;
use tables::{One, Single, work_out};
use theory::{Kind, Mark, Refusal};

#[test]
fn a_search_by_hand(rt: HostRuntime) -> Result<(), Fail> {
    let moves = two_moves()?;
    let task = task_of(draft_of(&moves)?)?;
    let bound = Blind { of: PhantomData };
    let mut table = [blank::<Minutes>(); 6];
    let mut search = Search::make(task, &bound, &mut table);
    let first = search.run(&bound, 1).map_err(|_| "refused")?;
    assert_eq!(rt; first.kind, Kind::Pending);
    let mut list = [5, 5, 5];
    assert_eq!(rt; search.read_out(&mut list), Err(Refusal::NotPlanned));
    assert_eq!(rt; list, [5, 5, 5]);
    let last = search.run(&bound, 65_536).map_err(|_| "refused")?;
    assert_eq!(rt; last.kind, Kind::Plan);
    assert_eq!(rt; (last.opened, last.value), (2, Minutes { total: 19 }));
    assert_eq!(rt; search.read_out(&mut list), Ok(2));
    assert_eq!(rt; list, [0, 1, 5]);
    let table = search.close();
    assert!(rt; table.len() == 6);
    assert!(rt; table[0].set == set_of(&[1, 2])? && table[0].mark == Mark::Shut);
    assert_eq!(rt; (table[0].parent, table[0].via), (65_535, 65_535));
    assert!(rt; table[3].set == set_of(&[0])? && table[3].mark == Mark::Waiting);
    assert_eq!(rt; (table[3].parent, table[3].via), (2, 0));
    assert_eq!(rt; (table[4].parent, table[4].via), (7, 7));
    Ok(())
}

// All groups and group 1 once more: move 1 is then charged twice.
#[test]
fn an_overdrawn_bound(rt: HostRuntime) -> Result<(), Fail> {
    let moves = two_moves()?;
    let task = task_of(draft_of(&moves)?)?;
    let mut all: [Estimate<Minutes>; 3] = [None; 3];
    let mut second: [Estimate<Minutes>; 3] = [None; 3];
    assert!(rt; work_out::<One, Minutes>(&task, 255, &mut all).is_ok());
    assert!(rt; work_out::<One, Minutes>(&task, 2, &mut second).is_ok());
    let bound = Sum {
        one: Single::of(&task, 255, &all),
        other: Single::of(&task, 2, &second),
    };
    let mut table = [blank::<Minutes>(); 4];
    let mut search = Search::make(task, &bound, &mut table);
    let blind = Blind::<Minutes> { of: PhantomData };
    assert_eq!(rt; search.run(&blind, 1), Err(Refusal::Overdrawn));
    let table = search.close();
    assert!(rt; table.len() == 4);
    assert_eq!(rt; (table[0].parent, table[0].via), (7, 7));
    Ok(())
}

// A table of costs that was worked out for other moves does not fit.
#[test]
fn a_bound_of_another_task(rt: HostRuntime) -> Result<(), Fail> {
    let moves = two_moves()?;
    let task = task_of(draft_of(&moves)?)?;
    let other = task_of(draft_of(&moves[0..1])?)?;
    let mut costs: [Estimate<Minutes>; 3] = [None; 3];
    assert!(rt; work_out::<One, Minutes>(&other, 255, &mut costs).is_ok());
    let bound = Single::of(&other, 255, &costs);
    let blind = Blind::<Minutes> { of: PhantomData };
    let mut table = [blank::<Minutes>(); 4];
    let mut search = Search::make(task, &blind, &mut table);
    assert_eq!(rt; search.run(&bound, 1), Err(Refusal::Misfit));
    let reply = search.run(&blind, 0).map_err(|_| "refused")?;
    assert_eq!(rt; reply.value, Minutes::nil());
    Ok(())
}

#[test]
fn numbers_told(rt: HostRuntime) {
    assert_eq!(rt; Refusal::TableSize.number(), 8);
    assert_eq!(rt; Refusal::Misfit.number(), 9);
    assert_eq!(rt; Refusal::Overdrawn.number(), 10);
    assert_eq!(rt; Refusal::GrantTooLarge.number(), 11);
    assert_eq!(rt; Refusal::NotPlanned.number(), 12);
    assert_eq!(rt; Refusal::ListTooShort.number(), 13);
}
