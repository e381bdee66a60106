//! Bits and bytes of words.

use bop_bits::{PageSet, bytes_of, field, put, sext, word_of};

#[test]
fn fields_are_read_and_put(rt: HostRuntime) {
    let word = 0x1234_52b7;
    assert_eq!(rt; field::<0, 7>(word), 0x37);
    assert_eq!(rt; field::<7, 5>(word), 5);
    assert_eq!(rt; field::<12, 20>(word), 0x12345);
    assert_eq!(rt; field::<0, 32>(word), word);
    assert_eq!(rt; field::<31, 1>(0x8000_0000), 1);
    assert_eq!(rt; put::<7, 5>(word, 0xe6), 0x1234_5337);
    assert_eq!(rt; put::<0, 32>(word, 1), 1);
    assert_eq!(rt; put::<31, 1>(0, 3), 0x8000_0000);
}

#[test]
fn low_bits_have_a_sign(rt: HostRuntime) {
    assert_eq!(rt; sext::<12>(0x7ff), 2047);
    assert_eq!(rt; sext::<12>(0x800), -2048);
    assert_eq!(rt; sext::<12>(0xffff), -1);
    assert_eq!(rt; sext::<1>(1), -1);
    assert_eq!(rt; sext::<32>(0x8000_0000), i32::MIN);
}

#[test]
fn the_lowest_byte_is_first(rt: HostRuntime) {
    assert_eq!(rt; bytes_of(0x0050_0093), [0x93, 0x00, 0x50, 0x00]);
    assert_eq!(rt; word_of(&[0x93, 0x00, 0x50, 0x00]), 0x0050_0093);
    assert_eq!(rt; word_of(&bytes_of(u32::MAX)), u32::MAX);
}

#[test]
fn sets_hold_what_is_added(rt: HostRuntime) {
    let mut pages = PageSet::new();
    let mut others = PageSet::new();
    for page in [0, 63, 64, 767] {
        pages.set(page);
    }
    others.set(65);
    others.set(127);
    let found: [bool; 6] = [
        pages.has(0),
        pages.has(63),
        pages.has(64),
        pages.has(767),
        pages.has(1),
        pages.has(65),
    ];
    assert_eq!(rt; found, [true, true, true, true, false, false]);
    assert!(rt; !pages.meets(&others));
    others.set(767);
    assert!(rt; pages.meets(&others));
    pages.difference_with(&others);
    assert!(rt; pages.has(0) && !pages.has(767));
    pages.union_with(&others);
    assert!(rt; pages.has(127) && pages.has(767));
}
