//! Jumps and branches.

use crate::tests::jobs::{blank, step};
use rv_step::Stepped;
use std::test::Fail;

/// Name, word, values of x1 and x2, the pc afterwards, the value of x3 afterwards. The jump is at
/// 0x10000.
#[test]
fn jumps_and_branches_lead_somewhere(rt: HostRuntime) -> Result<(), Fail> {
    let alloc = rt.alloc();
    let rows: [(&str, u32, u32, u32, u32, u32); 16] = [
        ("JAL x3, +16", 0x0100_01ef, 0, 0, 0x1_0010, 0x1_0004),
        ("JAL x0, -4", 0xffdf_f06f, 0, 0, 0xfffc, 0),
        (
            "JALR x3, 4(x1)",
            0x0040_81e7,
            0x1_0101,
            0,
            0x1_0104,
            0x1_0004,
        ),
        ("JALR x3, -1(x1)", 0xfff0_81e7, 1, 0, 0, 0x1_0004),
        ("BEQ +8, equal", 0x0020_8463, 7, 7, 0x1_0008, 0),
        ("BEQ +8, not equal", 0x0020_8463, 7, 8, 0x1_0004, 0),
        ("BNE +8, not equal", 0x0020_9463, 7, 8, 0x1_0008, 0),
        ("BNE +8, equal", 0x0020_9463, 7, 7, 0x1_0004, 0),
        ("BLT +8, -1 < 0", 0x0020_c463, u32::MAX, 0, 0x1_0008, 0),
        ("BLT +8, 0 < -1", 0x0020_c463, 0, u32::MAX, 0x1_0004, 0),
        ("BGE +8, 0 >= -1", 0x0020_d463, 0, u32::MAX, 0x1_0008, 0),
        ("BGE +8, 5 >= 5", 0x0020_d463, 5, 5, 0x1_0008, 0),
        (
            "BLTU +8, 0 < 2^32 - 1",
            0x0020_e463,
            0,
            u32::MAX,
            0x1_0008,
            0,
        ),
        (
            "BLTU +8, 2^32 - 1 < 0",
            0x0020_e463,
            u32::MAX,
            0,
            0x1_0004,
            0,
        ),
        (
            "BGEU +8, 2^32 - 1 >= 0",
            0x0020_f463,
            u32::MAX,
            0,
            0x1_0008,
            0,
        ),
        ("BNE +2, not taken", 0x0020_9163, 7, 7, 0x1_0004, 0),
    ];
    let mut state = blank(alloc).ok_or("no memory")?;
    for (name, word, a, b, pc, x3) in rows {
        let answer = step(alloc, &mut state, word, a, b).ok_or("no memory")?;
        assert_eq!(rt; answer, Stepped::Plain, "{}", name);
        let (at, link) = (state.cpu.pc, state.cpu.x[3]);
        assert_eq!(rt; (at, link), (pc, x3), "{}", name);
    }
    Ok(())
}
