use super::*;
use flow::{one_byte, union};
use shelf::Shelf;

mod shelf;

#[test]
fn finds_what_covers_the_key(rt: HostRuntime) {
    let mask = one_byte(22, 0xf0);
    let mut shelf = Shelf::new();
    shelf.put(2, 5, &mask, &one_byte(22, 0xa0), 7);
    assert_eq!(rt; shelf.find(&mask, &one_byte(22, 0xa5)), Some(7));
    assert_eq!(rt; shelf.find_place(&mask, &one_byte(22, 0xa5)), Some(2));
    assert_eq!(rt;
        shelf.find(&mask, &union(&one_byte(22, 0xaf), &one_byte(3, 9))),
        Some(7)
    );
    assert_eq!(rt; shelf.find(&mask, &one_byte(22, 0xb5)), None);
}

#[test]
fn finds_no_other_mask(rt: HostRuntime) {
    let mut shelf = Shelf::new();
    shelf.put(0, 5, &one_byte(22, 0xf0), &one_byte(22, 0xa0), 7);
    assert_eq!(rt; shelf.find(&one_byte(22, 0xff), &one_byte(22, 0xa0)), None);
    assert_eq!(rt;
        shelf.find_place(&one_byte(22, 0xff), &one_byte(22, 0xa0)),
        None
    );
}

#[test]
fn finds_the_highest_rank(rt: HostRuntime) {
    let mask = one_byte(1, 1);
    let mut shelf = Shelf::new();
    shelf.put(0, 3, &mask, &one_byte(1, 1), 10);
    shelf.put(1, 9, &mask, &one_byte(1, 1), 11);
    shelf.put(2, 4, &mask, &one_byte(1, 1), 12);
    assert_eq!(rt; shelf.find(&mask, &one_byte(1, 3)), Some(11));
    shelf.put(3, 9, &mask, &one_byte(1, 1), 13);
    assert_eq!(rt; shelf.find(&mask, &one_byte(1, 3)), Some(13));
    assert_eq!(rt; shelf.find_place(&mask, &one_byte(1, 3)), Some(3));
}

#[test]
fn finds_nothing_that_may_not_answer(rt: HostRuntime) {
    let mask = one_byte(30, 0xff);
    let mut shelf = Shelf::new();
    shelf.put(1, 1, &mask, &one_byte(30, 6), 20);
    shelf.put(3, 2, &mask, &one_byte(30, 6), 21);
    shelf.take(3);
    assert_eq!(rt; shelf.find(&mask, &one_byte(30, 6)), Some(20));
    shelf.take(1);
    assert_eq!(rt; shelf.find(&mask, &one_byte(30, 6)), None);
    shelf.put(1, 1, &mask, &one_byte(30, 8), 22);
    assert_eq!(rt; shelf.find(&mask, &one_byte(30, 8)), Some(22));
    assert_eq!(rt; shelf.find(&mask, &one_byte(30, 6)), None);
}
