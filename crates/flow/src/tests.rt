use super::*;
use std::test::Fail;

#[test]
fn covers_by_the_masks_bits(rt: HostRuntime) -> Result<(), Fail> {
    let key = MaskedKey::from_row(&one_byte(22, 0xf0), &one_byte(22, 0xa0))?;
    assert!(rt; key.covers(&one_byte(22, 0xa5)));
    assert!(rt; !key.covers(&one_byte(22, 0xb0)));
    assert!(rt; !key.covers(&one_byte(23, 0xa0)));
    assert!(rt; key.covers(&union(&one_byte(22, 0xaf), &one_byte(23, 7))));
    Ok(())
}

#[test]
fn refuses_a_value_outside_its_mask(rt: HostRuntime) {
    let value = union(&one_byte(4, 1), &one_byte(9, 0x20));
    assert_eq!(rt;
        MaskedKey::from_row(&one_byte(4, 1), &value).err(),
        Some(OutsideMask { byte: 9 })
    );
    assert_eq!(rt;
        MaskedKey::from_row(&one_byte(9, 0xff), &value).err(),
        Some(OutsideMask { byte: 4 })
    );
}

#[test]
fn overlaps_where_some_key_is_covered_by_both(rt: HostRuntime) -> Result<(), Fail> {
    let high = MaskedKey::from_row(&one_byte(0, 0xf0), &one_byte(0, 0x10))?;
    let low = MaskedKey::from_row(&one_byte(0, 0x0f), &one_byte(0, 0x02))?;
    let other = MaskedKey::from_row(&one_byte(0, 0xff), &one_byte(0, 0x22))?;
    assert!(rt; high.overlaps(&low));
    assert!(rt; low.overlaps(&other));
    assert!(rt; !high.overlaps(&other));
    Ok(())
}
