use super::*;
use flow::{MaskedKey, one_byte};
use std::test::Fail;

#[test]
fn finds_the_highest_priority(rt: HostRuntime) -> Result<(), Fail> {
    let mut table = <Linear as Classifier>::new(rt.alloc(), ())?;
    let high = MaskedKey::from_row(&one_byte(0, 0xf0), &one_byte(0, 0x10))?;
    let low = MaskedKey::from_row(&one_byte(1, 0xff), &one_byte(1, 7))?;
    table.add(&NewRule {
        ports: 1,
        ..NewRule::dropping(5, 10, low)
    })?;
    table.add(&NewRule {
        ports: 2,
        ..NewRule::dropping(9, 20, high)
    })?;
    let both = flow::union(&one_byte(0, 0x13), &one_byte(1, 7));
    let first = table.find(&both);
    assert_eq!(rt; first.id(), Some(9));
    assert!(rt; first.mask[0] == 0xf0 && first.mask[1] == 0);
    let second = table.find(&one_byte(1, 7));
    assert_eq!(rt; second.id(), Some(5));
    assert!(rt; second.mask[0] == 0xf0 && second.mask[1] == 0xff);
    assert_eq!(rt; table.find(&one_byte(2, 1)).id(), None);
    Ok(())
}

#[test]
fn refuses_and_counts(rt: HostRuntime) -> Result<(), Fail> {
    let mut table = <Linear as Classifier>::new(rt.alloc(), ())?;
    let one = MaskedKey::from_row(&one_byte(0, 0x0f), &one_byte(0, 1))?;
    let other = MaskedKey::from_row(&one_byte(0, 0xf0), &one_byte(0, 0x20))?;
    table.add(&NewRule::dropping(7, 3, one))?;
    assert_eq!(rt;
        table.add(&NewRule::dropping(7, 4, other)),
        Err(ClassifierFault::Stands(7))
    );
    assert_eq!(rt;
        table.add(&NewRule::dropping(8, 3, other)),
        Err(ClassifierFault::Overlaps(7))
    );
    table.credit(7, u64::MAX);
    table.credit(7, 3);
    assert_eq!(rt; table.count(7), Ok(2));
    table.remove(7)?;
    assert_eq!(rt; table.count(7), Err(ClassifierFault::Missing(7)));
    Ok(())
}
