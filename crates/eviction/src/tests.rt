use super::*;
use std::test::Fail;

// Slots 3, 0 and 127 are put, in this order.
fn fill<P: Policy>(policy: &mut P) {
    policy.put(3);
    policy.put(0);
    policy.put(127);
}

// The pick, which then leaves; 255 for none.
fn evict<P: Policy>(policy: &mut P) -> u8 {
    match policy.pick() {
        Some(slot) => {
            policy.gone(slot);
            slot
        }
        None => 255,
    }
}

// Four slots that leave one after the other.
fn drain<P: Policy>(policy: &mut P) -> [u8; 4] {
    [evict(policy), evict(policy), evict(policy), evict(policy)]
}

#[test]
fn fifo_goes_by_the_latest_put(rt: HostRuntime) -> Result<(), Fail> {
    let mut fifo = <Fifo as Policy>::new(rt.alloc(), ())?;
    fill(&mut fifo);
    fifo.put(3);
    fifo.touch(0);
    assert_eq!(rt; fifo.pick(), Some(0));
    assert_eq!(rt; drain(&mut fifo), [0, 127, 3, 255]);
    fill(&mut fifo);
    fifo.gone(0);
    assert_eq!(rt; drain(&mut fifo), [3, 127, 255, 255]);
    Ok(())
}

#[test]
fn fifo_holds_all_slots(rt: HostRuntime) -> Result<(), Fail> {
    let mut fifo = <Fifo as Policy>::new(rt.alloc(), ())?;
    for slot in 0..=255u8 {
        fifo.put(slot);
    }
    for slot in 0..128u8 {
        assert_eq!(rt; evict(&mut fifo), slot);
    }
    assert_eq!(rt; evict(&mut fifo), 255);
    Ok(())
}

#[test]
fn clock_gives_a_second_chance(rt: HostRuntime) -> Result<(), Fail> {
    let mut clock = <Clock as Policy>::new(rt.alloc(), ())?;
    fill(&mut clock);
    // the first round clears all marks
    assert_eq!(rt; evict(&mut clock), 0);
    clock.touch(3);
    assert_eq!(rt; evict(&mut clock), 127);
    // the hand came round; a new slot has a mark, and slot 3 has lost its own
    clock.put(1);
    assert_eq!(rt; drain(&mut clock), [3, 1, 255, 255]);
    Ok(())
}

#[test]
fn clock_marks_filled_slots_only(rt: HostRuntime) -> Result<(), Fail> {
    let mut clock = <Clock as Policy>::new(rt.alloc(), ())?;
    fill(&mut clock);
    assert_eq!(rt; clock.pick(), Some(0));
    clock.touch(200);
    clock.put(128);
    clock.touch(5);
    // slot 3 lost its mark when the hand passed it
    assert_eq!(rt; clock.pick(), Some(3));
    clock.gone(127);
    clock.gone(128);
    assert_eq!(rt; drain(&mut clock), [0, 3, 255, 255]);
    Ok(())
}

#[test]
fn kinds_differ(rt: HostRuntime) -> Result<(), Fail> {
    let mut fifo = <AnyPolicy as Policy>::new(rt.alloc(), PolicyKind::Fifo)?;
    let mut clock = <AnyPolicy as Policy>::new(rt.alloc(), PolicyKind::Clock)?;
    fill(&mut fifo);
    fill(&mut clock);
    fifo.touch(3);
    clock.touch(3);
    assert_eq!(rt; drain(&mut fifo), [3, 0, 127, 255]);
    assert_eq!(rt; drain(&mut clock), [0, 3, 127, 255]);
    Ok(())
}
