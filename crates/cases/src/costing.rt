use crate::{minutes, worst};
use costs::{Estimate, Minutes, Tally, Worst, list_cost};
use facts::FactSet;
use samples::{move_of, task_of};
use std::test::Fail;
use tasks::{Draft, Move};

#[test]
fn minutes_stay_at_the_ceiling(rt: HostRuntime) {
    assert_eq!(rt; minutes(15).join(minutes(4)), minutes(19));
    let most = minutes(4_294_967_295);
    assert_eq!(rt; most.join(minutes(1)), most);
    assert_eq!(rt; minutes(4_294_967_294).join(minutes(1)), most);
    assert_eq!(rt; most.join(most), most);
    assert!(rt; Minutes::nil().at_most(minutes(0)) && !minutes(1).at_most(minutes(0)));
    assert_eq!(rt; Minutes::charge(65_535, 7), minutes(65_535));
}

#[test]
fn worst_takes_the_larger(rt: HostRuntime) {
    assert_eq!(rt; worst(15).join(worst(4)), worst(15));
    assert_eq!(rt; Worst::nil(), worst(0));
    assert_eq!(rt; Worst::charge(65_535, 0), worst(65_535));
}

#[test]
fn never_is_above_all(rt: HostRuntime) {
    let some = Some(minutes(4));
    let never: Estimate<Minutes> = None;
    assert!(rt; some.at_most(never) && !never.at_most(some) && never.at_most(never));
    assert_eq!(rt; some.join(never), None);
    assert_eq!(rt; never.join(some), None);
    assert_eq!(rt; some.join(some), Some(minutes(8)));
    assert_eq!(rt; some.larger(never), None);
    assert_eq!(rt; some.smaller(never), Some(minutes(4)));
}

#[test]
fn costs_of_lists(rt: HostRuntime) -> Result<(), Fail> {
    let first = move_of(&[], &[0], &[])?;
    let moves = [
        Move { price: 15, ..first },
        Move {
            price: 4,
            group: 1,
            ..first
        },
    ];
    let draft = Draft {
        facts: 1,
        start: FactSet::empty(),
        goal: FactSet::empty(),
        moves: &moves,
    };
    let task = task_of(draft)?;
    assert_eq!(rt; list_cost(&task, &[0, 1, 1]), Some(minutes(23)));
    assert_eq!(rt; list_cost(&task, &[]), Some(minutes(0)));
    assert_eq!(rt; list_cost::<Minutes>(&task, &[0, 2]), None);
    assert_eq!(rt; list_cost(&task, &[1, 0, 1]), Some(worst(15)));
    Ok(())
}
