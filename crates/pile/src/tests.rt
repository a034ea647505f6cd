use super::*;
use classifier::{Classifier, ClassifierFault, NewRule};
use flow::{MaskedKey, one_byte};
use std::process::Abort;
use std::test::Fail;

// Rules 1 and 2 of one mask, at priorities 9 and 3, and rule 3 of another at priority 6.
fn filled(rt: HostRuntime, kind: ClassifierKind) -> Result<AnyClassifier, Fail> {
    let mut table = <AnyClassifier as Classifier>::new(rt.alloc(), kind)?;
    table.add(&NewRule::dropping(
        1,
        9,
        MaskedKey::from_row(&one_byte(0, 0xff), &one_byte(0, 1))?,
    ))?;
    table.add(&NewRule::dropping(
        2,
        3,
        MaskedKey::from_row(&one_byte(0, 0xff), &one_byte(0, 2))?,
    ))?;
    table.add(&NewRule::dropping(
        3,
        6,
        MaskedKey::from_row(&one_byte(1, 0xff), &one_byte(1, 7))?,
    ))?;
    Ok(table)
}

// The answers in which kinds do not differ.
fn check_alike(rt: &impl Abort, table: &mut AnyClassifier) -> Result<(), Fail> {
    assert_eq!(rt; table.find(&one_byte(0, 1)).id(), Some(1));
    assert_eq!(rt;
        table
            .find(&flow::union(&one_byte(0, 2), &one_byte(1, 7)))
            .id(),
        Some(3)
    );
    assert_eq!(rt; table.find(&one_byte(0, 5)).id(), None);
    table.credit(3, 4);
    assert_eq!(rt; table.count(3), Ok(4));
    assert_eq!(rt; table.remove(4), Err(ClassifierFault::Missing(4)));
    table.remove(3)?;
    assert_eq!(rt; table.count(3), Err(ClassifierFault::Missing(3)));
    Ok(())
}

#[test]
fn linear_looks_at_rules(rt: HostRuntime) -> Result<(), Fail> {
    let mut table = filled(rt, ClassifierKind::Linear)?;
    let low = table.find(&one_byte(0, 2));
    assert!(rt; low.id() == Some(2) && low.mask[0] == 0xff && low.mask[1] == 0xff);
    check_alike(&rt, &mut table)?;
    let high = table.find(&one_byte(0, 1));
    assert!(rt; high.id() == Some(1) && high.mask[0] == 0xff && high.mask[1] == 0);
    Ok(())
}

#[test]
fn tuple_visits_masks(rt: HostRuntime) -> Result<(), Fail> {
    let mut table = filled(rt, ClassifierKind::Tuple)?;
    let low = table.find(&one_byte(0, 2));
    assert!(rt; low.id() == Some(2) && low.mask[0] == 0xff && low.mask[1] == 0xff);
    check_alike(&rt, &mut table)?;
    let high = table.find(&one_byte(0, 1));
    assert!(rt; high.id() == Some(1) && high.mask[0] == 0xff && high.mask[1] == 0);
    Ok(())
}

// Of two rules of one priority the linear classifier looks at that of the lower id first,
// the tuple space at the mask that came first.
#[test]
fn kinds_differ_in_masks(rt: HostRuntime) -> Result<(), Fail> {
    let one = MaskedKey::from_row(&one_byte(0, 0xff), &one_byte(0, 1))?;
    let other = MaskedKey::from_row(
        &flow::union(&one_byte(0, 0xff), &one_byte(1, 0xff)),
        &one_byte(0, 2),
    )?;
    let mut linear = <AnyClassifier as Classifier>::new(rt.alloc(), ClassifierKind::Linear)?;
    let mut tuple = <AnyClassifier as Classifier>::new(rt.alloc(), ClassifierKind::Tuple)?;
    linear.add(&NewRule::dropping(8, 5, one))?;
    tuple.add(&NewRule::dropping(8, 5, one))?;
    linear.add(&NewRule::dropping(7, 5, other))?;
    tuple.add(&NewRule::dropping(7, 5, other))?;
    assert_eq!(rt; linear.find(&one_byte(0, 1)).mask[1], 0xff);
    assert_eq!(rt; tuple.find(&one_byte(0, 1)).mask[1], 0);
    Ok(())
}
