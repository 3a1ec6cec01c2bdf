use facts::FactSet;
use samples::set_of;
use std::test::Fail;

#[test]
fn facts_up_to_63(rt: HostRuntime) -> Result<(), Fail> {
    let set = set_of(&[63, 0, 5])?;
    assert!(rt; set.has(63) && set.has(0) && set.has(5));
    assert!(rt; !set.has(62) && !set.has(64) && !set.has(255));
    assert!(rt; FactSet::empty().with(64).is_none());
    assert_eq!(rt; set.count(), 3);
    assert!(rt; set.has_from(63) && !set.has_from(64));
    assert_eq!(rt; FactSet::empty().count(), 0);
    Ok(())
}

#[test]
fn rising_order(rt: HostRuntime) -> Result<(), Fail> {
    let mut facts = set_of(&[63, 7, 0, 8])?.iter();
    assert_eq!(rt; facts.next(), Some(0));
    assert_eq!(rt; facts.next(), Some(7));
    assert_eq!(rt; facts.next(), Some(8));
    assert_eq!(rt; facts.next(), Some(63));
    assert_eq!(rt; facts.next(), None);
    Ok(())
}

#[test]
fn operations(rt: HostRuntime) -> Result<(), Fail> {
    let low = set_of(&[0, 1])?;
    let high = set_of(&[1, 63])?;
    assert!(rt; low.union(high) == set_of(&[0, 1, 63])?);
    assert!(rt; low.without(high) == set_of(&[0])?);
    assert!(rt; low.overlaps(high) && !low.without(high).overlaps(high));
    assert!(rt; low.is_within(low.union(high)) && !low.is_within(high));
    assert!(rt; FactSet::empty().is_within(low) && !FactSet::empty().overlaps(low));
    Ok(())
}
