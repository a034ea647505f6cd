use super::*;
use classifier::{Classifier, ClassifierFault, NewRule};
use flow::{MaskedKey, one_byte};
use std::test::Fail;

#[test]
fn finds_across_tuples(rt: HostRuntime) -> Result<(), Fail> {
    let mut table = <TupleSpace as Classifier>::new(rt.alloc(), ())?;
    assert_eq!(rt; table.find(&one_byte(1, 7)).id(), None);
    table.add(&NewRule {
        ports: 1,
        ..NewRule::dropping(
            5,
            10,
            MaskedKey::from_row(&one_byte(1, 0xff), &one_byte(1, 7))?,
        )
    })?;
    table.add(&NewRule {
        ports: 2,
        ..NewRule::dropping(
            9,
            20,
            MaskedKey::from_row(&one_byte(0, 0xf0), &one_byte(0, 0x10))?,
        )
    })?;
    table.add(&NewRule {
        ports: 4,
        ..NewRule::dropping(
            3,
            15,
            MaskedKey::from_row(&one_byte(1, 0xff), &one_byte(1, 8))?,
        )
    })?;
    // the tuple of the highest rank is visited first, and no other if it has the rule
    let first = table.find(&flow::union(&one_byte(0, 0x13), &one_byte(1, 7)));
    assert_eq!(rt; first.id(), Some(9));
    assert!(rt; first.mask[0] == 0xf0 && first.mask[1] == 0);
    // a tuple that was visited in vain is in the mask
    let second = table.find(&one_byte(1, 7));
    assert_eq!(rt; second.id(), Some(5));
    assert!(rt; second.mask[0] == 0xf0 && second.mask[1] == 0xff);
    assert_eq!(rt; table.find(&one_byte(1, 8)).id(), Some(3));
    let none = table.find(&one_byte(2, 1));
    assert_eq!(rt; none.id(), None);
    assert!(rt; none.mask[0] == 0xf0 && none.mask[1] == 0xff && none.mask[2] == 0);
    Ok(())
}

#[test]
fn stops_at_an_equal_rank(rt: HostRuntime) -> Result<(), Fail> {
    let mut table = <TupleSpace as Classifier>::new(rt.alloc(), ())?;
    let one = MaskedKey::from_row(
        &flow::union(&one_byte(0, 0xff), &one_byte(9, 1)),
        &one_byte(0, 1),
    )?;
    let other = MaskedKey::from_row(
        &flow::union(&one_byte(1, 0xff), &one_byte(9, 1)),
        &one_byte(9, 1),
    )?;
    table.add(&NewRule::dropping(1, 5, one))?;
    table.add(&NewRule::dropping(2, 5, other))?;
    // the mask that arrived first is visited first, and the other has no higher rule
    let first = table.find(&one_byte(0, 1));
    assert_eq!(rt; first.id(), Some(1));
    assert!(rt; first.mask[0] == 0xff && first.mask[1] == 0 && first.mask[9] == 1);
    let second = table.find(&one_byte(9, 1));
    assert_eq!(rt; second.id(), Some(2));
    assert!(rt; second.mask[0] == 0xff && second.mask[1] == 0xff && second.mask[9] == 1);
    Ok(())
}

#[test]
fn goes_on_above_what_was_found(rt: HostRuntime) -> Result<(), Fail> {
    let mut table = <TupleSpace as Classifier>::new(rt.alloc(), ())?;
    table.add(&NewRule::dropping(
        1,
        9,
        MaskedKey::from_row(&one_byte(0, 0xff), &one_byte(0, 1))?,
    ))?;
    table.add(&NewRule::dropping(
        2,
        3,
        MaskedKey::from_row(&one_byte(0, 0xff), &one_byte(0, 2))?,
    ))?;
    table.add(&NewRule::dropping(
        3,
        4,
        MaskedKey::from_row(&one_byte(1, 0xff), &one_byte(1, 7))?,
    ))?;
    // the first tuple has a rule of priority 3, and the second has rank 4
    let both = table.find(&flow::union(&one_byte(0, 2), &one_byte(1, 7)));
    assert_eq!(rt; both.id(), Some(3));
    assert!(rt; both.mask[0] == 0xff && both.mask[1] == 0xff);
    let low = table.find(&one_byte(0, 2));
    assert_eq!(rt; low.id(), Some(2));
    assert!(rt; low.mask[0] == 0xff && low.mask[1] == 0xff);
    Ok(())
}

#[test]
fn a_mask_that_comes_back_is_last(rt: HostRuntime) -> Result<(), Fail> {
    let mut table = <TupleSpace as Classifier>::new(rt.alloc(), ())?;
    let one = MaskedKey::from_row(&one_byte(0, 0xff), &one_byte(0, 1))?;
    let other = MaskedKey::from_row(
        &flow::union(&one_byte(0, 0xff), &one_byte(1, 0xff)),
        &one_byte(0, 2),
    )?;
    table.add(&NewRule::dropping(1, 5, one))?;
    table.add(&NewRule::dropping(2, 5, other))?;
    let before = table.find(&one_byte(0, 1));
    assert!(rt; before.id() == Some(1) && before.mask[1] == 0);
    table.remove(1)?;
    assert_eq!(rt; table.find(&one_byte(0, 1)).id(), None);
    table.add(&NewRule::dropping(1, 5, one))?;
    let after = table.find(&one_byte(0, 1));
    assert!(rt; after.id() == Some(1) && after.mask[1] == 0xff);
    // it stays where it is while a rule has it
    table.remove(2)?;
    table.add(&NewRule::dropping(2, 5, other))?;
    table.add(&NewRule::dropping(
        3,
        5,
        MaskedKey::from_row(&one_byte(0, 0xff), &one_byte(0, 3))?,
    ))?;
    table.remove(1)?;
    table.add(&NewRule::dropping(1, 5, one))?;
    let kept = table.find(&one_byte(0, 1));
    assert!(rt; kept.id() == Some(1) && kept.mask[1] == 0);
    Ok(())
}

#[test]
fn a_rank_falls_with_its_highest_rule(rt: HostRuntime) -> Result<(), Fail> {
    let mut table = <TupleSpace as Classifier>::new(rt.alloc(), ())?;
    table.add(&NewRule::dropping(
        1,
        9,
        MaskedKey::from_row(&one_byte(0, 0xff), &one_byte(0, 1))?,
    ))?;
    table.add(&NewRule::dropping(
        2,
        3,
        MaskedKey::from_row(&one_byte(0, 0xff), &one_byte(0, 2))?,
    ))?;
    table.add(&NewRule::dropping(
        3,
        6,
        MaskedKey::from_row(&one_byte(1, 0xff), &one_byte(1, 7))?,
    ))?;
    let before = table.find(&one_byte(1, 7));
    assert!(rt; before.id() == Some(3) && before.mask[0] == 0xff && before.mask[1] == 0xff);
    table.remove(1)?;
    let after = table.find(&one_byte(1, 7));
    assert!(rt; after.id() == Some(3) && after.mask[0] == 0 && after.mask[1] == 0xff);
    assert_eq!(rt; table.find(&one_byte(0, 2)).id(), Some(2));
    assert_eq!(rt; table.find(&one_byte(0, 1)).id(), None);
    Ok(())
}

#[test]
fn refuses_and_counts(rt: HostRuntime) -> Result<(), Fail> {
    let mut table = <TupleSpace as Classifier>::new(rt.alloc(), ())?;
    let one = MaskedKey::from_row(&one_byte(0, 0x0f), &one_byte(0, 1))?;
    let other = MaskedKey::from_row(&one_byte(0, 0xf0), &one_byte(0, 0x20))?;
    table.add(&NewRule::dropping(7, 3, one))?;
    assert_eq!(rt;
        table.add(&NewRule::dropping(7, 4, other)),
        Err(ClassifierFault::Stands(7))
    );
    assert_eq!(rt;
        table.add(&NewRule::dropping(8, 3, other)),
        Err(ClassifierFault::Overlaps(7))
    );
    assert_eq!(rt; table.remove(8), Err(ClassifierFault::Missing(8)));
    // what was refused left no mask
    assert_eq!(rt; table.find(&one_byte(0, 0x21)).mask[0], 0x0f);
    table.credit(7, u64::MAX);
    table.credit(7, 3);
    assert_eq!(rt; table.count(7), Ok(2));
    table.remove(7)?;
    assert_eq!(rt; table.count(7), Err(ClassifierFault::Missing(7)));
    assert_eq!(rt; table.find(&one_byte(0, 0x21)).mask[0], 0);
    Ok(())
}

// A key of two bytes.
fn pair(at: usize, byte: u8, then: u8) -> [u8; 36] {
    flow::union(&one_byte(at, byte), &one_byte(35, then))
}

#[test]
fn holds_64_rules(rt: HostRuntime) -> Result<(), Fail> {
    let mut table = <TupleSpace as Classifier>::new(rt.alloc(), ())?;
    // 32 masks with two rules each
    for i in 0..64u8 {
        let at = usize::from(i % 32);
        let key = MaskedKey::from_row(&pair(at, 0xff, 0xff), &pair(at, 9, i / 32))?;
        table.add(&NewRule::dropping(u32::from(i) + 1, u16::from(i % 32), key))?;
    }
    let more = MaskedKey::from_row(&one_byte(33, 1), &one_byte(33, 1))?;
    assert_eq!(rt;
        table.add(&NewRule::dropping(99, 1, more)),
        Err(ClassifierFault::Full)
    );
    for i in 0..64u8 {
        let at = usize::from(i % 32);
        assert_eq!(rt;
            table.find(&pair(at, 9, i / 32)).id(),
            Some(u32::from(i) + 1)
        );
    }
    table.remove(64)?;
    assert_eq!(rt; table.find(&pair(31, 9, 1)).id(), None);
    assert_eq!(rt; table.find(&pair(31, 9, 0)).id(), Some(32));
    Ok(())
}
