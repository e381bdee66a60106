//! Loads and stores.

use crate::tests::jobs::{blank, step};
use page_image::Image;
use rv_step::Stepped;
use std::test::Fail;

/// Bytes 0x80, 0x81, 0x82, 0x83 are at 0x100000. Name, word with x1 as its base, the value loaded
/// into x3.
#[test]
fn loads_extend_what_they_load(rt: HostRuntime) -> Result<(), Fail> {
    let alloc = rt.alloc();
    let rows: [(&str, u32, u32); 7] = [
        ("LB x3, 0(x1)", 0x0000_8183, 0xffff_ff80),
        ("LB x3, 4(x1)", 0x0040_8183, 0),
        ("LBU x3, 1(x1)", 0x0010_c183, 0x81),
        ("LH x3, 2(x1)", 0x0020_9183, 0xffff_8382),
        ("LHU x3, 2(x1)", 0x0020_d183, 0x8382),
        ("LW x3, 0(x1)", 0x0000_a183, 0x8382_8180),
        ("LW x3, 4(x1)", 0x0040_a183, 0),
    ];
    let mut state = blank(alloc).ok_or("no memory")?;
    state.image = Image::open(alloc, &[0x80, 0x81, 0x82, 0x83])
        .ok()
        .ok_or("no memory")?;
    for (name, word, value) in rows {
        let answer = step(alloc, &mut state, word, 0x10_0000, 0).ok_or("no memory")?;
        assert_eq!(rt; answer, Stepped::Plain, "{}", name);
        let x3 = state.cpu.x[3];
        assert_eq!(rt; x3, value, "{}", name);
    }
    Ok(())
}

/// The word at the last 4 bytes is 0xffffffff. Name, word with x1 as its base and x2 as its value,
/// the word afterwards.
#[test]
fn stores_put_their_bytes(rt: HostRuntime) -> Result<(), Fail> {
    let alloc = rt.alloc();
    let rows: [(&str, u32, u32); 4] = [
        ("SB x2, 0(x1)", 0x0020_8023, 0xffff_ff44),
        ("SB x2, 3(x1)", 0x0020_81a3, 0x44ff_ffff),
        ("SH x2, 2(x1)", 0x0020_9123, 0x3344_ffff),
        ("SW x2, 0(x1)", 0x0020_a023, 0x1122_3344),
    ];
    let mut state = blank(alloc).ok_or("no memory")?;
    assert!(rt; state.image.is_owned());
    for (name, word, value) in rows {
        assert!(rt; state.image.store(0x3f_fffc, 4, u32::MAX).is_ok());
        let answer = step(alloc, &mut state, word, 0x3f_fffc, 0x1122_3344).ok_or("no memory")?;
        assert_eq!(rt; answer, Stepped::Plain, "{}", name);
        assert_eq!(rt; state.image.load(0x3f_fffc, 4), value, "{}", name);
    }
    Ok(())
}
