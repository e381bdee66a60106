//! What steps note. Classes are given so that page 0 is shared, page 1 is checked and page 2 is
//! private; the stack is private.

ghost use Rattle.std.specs.Prelude.{◌≤◌, length};
ghost use Rattle.access_log.specs.Held.{IsRoomy};

use crate::tests::jobs::job_of;
use access_log::{Log, Places, Spot};
use bop_bits::{CODE_FROM, Classes};
use page_image::Image;
use rv_step::{Cpu, step};
use std::alloc::Global;
use std::test::Fail;

const EACH_CLASS: Classes = Classes {
    checked_from: 1,
    private_from: 2,
    private_to: 3,
};

/// All pages below the stack are shared.
const SHARED: Classes = Classes {
    checked_from: 1,
    private_from: 1,
    private_to: 1,
};

/// Takes as many steps as there are words, from registers x1, x2 and x17 and zeros, into a log.
fn run(alloc: Global, code: &[u32], x: (u32, u32, u32), log: &mut Log) -> Option<()>
    requires { length code.now ≤ 1000 }
{
    let job = job_of(alloc, code, b"ab")?;
    let mut image = Image::open(alloc, &[]).ok()?;
    let mut cpu = Cpu {
        x: [0; 32],
        pc: CODE_FROM,
        cursor: 0,
    };
    (cpu.x[1], cpu.x[2], cpu.x[17]) = x;
    for _ in code {
        step(&job, &mut cpu, &mut image, log);
    }
    Some(())
}

/// The registers of a set, as bits.
fn registers(places: &Places) -> u32 {
    let mut bits = 0;
    for r in 0..32u8 {
        if places.has(Spot::Register(r)) {
            bits |= 1 << r;
        }
    }
    bits
}

/// Name, words, values of x1, x2 and x17, and the registers that are first touched and written.
#[test]
fn registers_are_noted(rt: HostRuntime) -> Result<(), Fail> {
    let alloc = rt.alloc();
    let rows: [(&str, &[u32], (u32, u32, u32), u32, u32); 22] = [
        ("ADD x3, x1, x2", &[0x0020_81b3], (1, 2, 0), 0b0110, 0b1000),
        ("ADD x0, x1, x2", &[0x0020_8033], (1, 2, 0), 0b0110, 0),
        ("MUL x3, x0, x2", &[0x0220_01b3], (1, 2, 0), 0b0100, 0b1000),
        ("ADDI x1, x1, 1", &[0x0010_8093], (1, 2, 0), 0b0010, 0b0010),
        (
            "ADDI x1, x1, 1 twice",
            &[0x0010_8093, 0x0010_8093],
            (1, 2, 0),
            0b0010,
            0b0010,
        ),
        (
            "ADDI x3, x0, 5; ADD x4, x3, x1",
            &[0x0050_0193, 0x0011_8233],
            (1, 2, 0),
            0b0010,
            0b1_1000,
        ),
        ("SLLI x3, x1, 2", &[0x0020_9193], (1, 2, 0), 0b0010, 0b1000),
        ("LUI x5, 1", &[0x0000_12b7], (1, 2, 0), 0, 1 << 5),
        ("AUIPC x5, 1", &[0x0000_1297], (1, 2, 0), 0, 1 << 5),
        ("JAL x1, 4", &[0x0040_00ef], (1, 2, 0), 0, 0b0010),
        (
            "JALR x3, 0(x1)",
            &[0x0000_81e7],
            (0x1_0000, 0, 0),
            0b0010,
            0b1000,
        ),
        (
            "JALR x3, 0(x1), misaligned",
            &[0x0000_81e7],
            (0x1_0002, 0, 0),
            0b0010,
            0,
        ),
        ("BEQ x1, x2, 8", &[0x0020_8463], (1, 2, 0), 0b0110, 0),
        ("FENCE", &[0x0000_818f], (1, 2, 0), 0, 0),
        ("EBREAK", &[0x0010_0073], (1, 2, 0), 0, 0),
        ("no instruction", &[0], (1, 2, 0), 0, 0),
        ("exit", &[0x0000_0073], (1, 2, 0), 1 << 17 | 1 << 10, 0),
        ("put", &[0x0000_0073], (1, 2, 2), 1 << 17 | 1 << 10, 1 << 10),
        ("begin", &[0x0000_0073], (1, 2, 3), 1 << 17 | 1 << 10, 0),
        ("post", &[0x0000_0073], (1, 2, 5), 1 << 17 | 0b111 << 10, 0),
        ("stack full", &[0x0000_0073], (1, 2, 7), 1 << 17, 0),
        ("no call", &[0x0000_0073], (1, 2, 8), 1 << 17, 0),
    ];
    for (name, code, x, first, wrote) in rows {
        let mut log = Log::new(alloc, EACH_CLASS).ok().ok_or("no memory")?;
        if code.len() <= 1000 {
            run(alloc, code, x, &mut log).ok_or("no memory")?;
        }
        assert_eq!(rt; registers(log.first()), first, "{}", name);
        assert_eq!(rt; registers(log.wrote()), wrote, "{}", name);
        assert!(rt; !log.first().has(Spot::Cursor), "{}", name);
        assert_eq!(rt; registers(log.wrote_after_fork()), 0, "{}", name);
    }
    Ok(())
}

/// Call 1 reads the cursor, and writes it and a0.
#[test]
fn the_cursor_is_noted(rt: HostRuntime) -> Result<(), Fail> {
    let alloc = rt.alloc();
    let mut log = Log::new(alloc, EACH_CLASS).ok().ok_or("no memory")?;
    run(alloc, &[0x0000_0073], (0, 0, 1), &mut log).ok_or("no memory")?;
    assert!(rt; log.first().has(Spot::Cursor));
    assert!(rt; log.wrote().has(Spot::Cursor));
    assert_eq!(rt; registers(log.first()), 1 << 17);
    assert_eq!(rt; registers(log.wrote()), 1 << 10);
    Ok(())
}

/// Name, words with x1 as their base, x1, an address, and whether it is first touched and written.
#[test]
fn bytes_are_noted(rt: HostRuntime) -> Result<(), Fail> {
    let alloc = rt.alloc();
    let rows: [(&str, &[u32], u32, u32, bool, bool); 21] = [
        (
            "LW of a shared page",
            &[0x0000_a183],
            0x10_0000,
            0x10_0fff,
            true,
            false,
        ),
        (
            "the page behind it",
            &[0x0000_a183],
            0x10_0000,
            0x10_1000,
            false,
            false,
        ),
        (
            "SW to a shared page",
            &[0x0020_a023],
            0x10_0ffc,
            0x10_0000,
            true,
            true,
        ),
        (
            "LW of a checked page",
            &[0x0000_a183],
            0x10_1004,
            0x10_1004,
            true,
            false,
        ),
        (
            "its last byte",
            &[0x0000_a183],
            0x10_1004,
            0x10_1007,
            true,
            false,
        ),
        (
            "the byte before it",
            &[0x0000_a183],
            0x10_1004,
            0x10_1003,
            false,
            false,
        ),
        (
            "the byte behind it",
            &[0x0000_a183],
            0x10_1004,
            0x10_1008,
            false,
            false,
        ),
        (
            "LHU of a private page",
            &[0x0000_d183],
            0x10_2002,
            0x10_2003,
            true,
            false,
        ),
        (
            "SB to a private page",
            &[0x0020_8023],
            0x10_2001,
            0x10_2001,
            false,
            true,
        ),
        (
            "the byte behind it",
            &[0x0020_8023],
            0x10_2001,
            0x10_2002,
            false,
            false,
        ),
        (
            "SH to a checked page",
            &[0x0020_9023],
            0x10_1ffe,
            0x10_1fff,
            false,
            true,
        ),
        (
            "SB and LBU of it",
            &[0x0020_8023, 0x0000_c183],
            0x10_2001,
            0x10_2001,
            false,
            true,
        ),
        (
            "SB and LW over it",
            &[0x0020_8023, 0x0000_a183],
            0x10_2000,
            0x10_2000,
            false,
            true,
        ),
        (
            "LW over it, its rest",
            &[0x0020_8023, 0x0000_a183],
            0x10_2000,
            0x10_2001,
            true,
            false,
        ),
        (
            "LBU and SB over it",
            &[0x0000_c183, 0x0020_8023],
            0x10_2000,
            0x10_2000,
            true,
            true,
        ),
        (
            "LW of the stack",
            &[0x0000_a183],
            0x3f_fffc,
            0x3f_ffff,
            true,
            false,
        ),
        (
            "SW to the stack",
            &[0x0020_a023],
            0x3c_0000,
            0x3c_0003,
            false,
            true,
        ),
        (
            "LW misaligned",
            &[0x0000_a183],
            0x10_0001,
            0x10_0001,
            false,
            false,
        ),
        (
            "SW misaligned",
            &[0x0020_a023],
            0x10_2001,
            0x10_2001,
            false,
            false,
        ),
        (
            "LB below the data",
            &[0x0000_8183],
            0x0f_ffff,
            0x10_0000,
            false,
            false,
        ),
        (
            "LB behind the stack",
            &[0x0000_8183],
            0x40_0000,
            0x10_0000,
            false,
            false,
        ),
    ];
    for (name, code, a, at, first, wrote) in rows {
        let mut log = Log::new(alloc, EACH_CLASS).ok().ok_or("no memory")?;
        if code.len() <= 1000 {
            run(alloc, code, (a, 7, 0), &mut log).ok_or("no memory")?;
        }
        assert_eq!(rt; has_byte(log.first(), at), first, "{}", name);
        assert_eq!(rt; has_byte(log.wrote(), at), wrote, "{}", name);
    }
    Ok(())
}

/// Whether a byte is in a set.
fn has_byte(places: &Places, at: u32) -> bool {
    0x10_0000 <= at && at < 0x40_0000 && places.has(Spot::Byte(at))
}

/// The stack's first byte is written and then read, byte 1048576 is written, and once more after
/// the fork.
#[test]
fn a_fork_parts_the_writes(rt: HostRuntime) -> Result<(), Fail> {
    let alloc = rt.alloc();
    let mut log = Log::new(alloc, SHARED).ok().ok_or("no memory")?;
    run(
        alloc,
        &[0x0020_8023, 0x0000_8183],
        (0x3c_0000, 7, 0),
        &mut log,
    )
    .ok_or("no memory")?;
    assert!(rt; !log.first().has(Spot::Byte(0x3c_0000)));
    assert!(rt; log.wrote().has(Spot::Byte(0x3c_0000)));
    assert!(rt; !log.wrote().has_page(704));
    run(alloc, &[0x0020_8023], (1_048_576, 7, 0), &mut log).ok_or("no memory")?;
    assert!(rt; log.first().has_page(0));
    assert!(rt; log.wrote().has_page(0));
    assert!(rt; log.touched(0) && log.touched(704) && !log.touched(1));
    log.at_fork();
    assert!(rt; !log.wrote_after_fork().has_page(0));
    run(alloc, &[0x0020_8023], (1_048_576, 7, 0), &mut log).ok_or("no memory")?;
    assert!(rt; log.wrote_after_fork().has_page(0));
    assert!(rt; !log.wrote_after_fork().has(Spot::Byte(0x3c_0000)));
    Ok(())
}

/// Follows a log, and keeps the room.
fn follow(changed: &mut Places, log: &Log)
    requires { IsRoomy changed.old }
    ensures { IsRoomy changed.new }
{
    changed.follow(log);
}

/// Page 1 was changed; a task reads page 1 and writes page 0, before its fork, and a byte of the
/// stack after it.
#[test]
fn changed_things_follow_the_logs(rt: HostRuntime) -> Result<(), Fail> {
    let alloc = rt.alloc();
    let mut changed = Places::roomy(alloc).ok().ok_or("no memory")?;
    let mut before = Log::new(alloc, SHARED).ok().ok_or("no memory")?;
    before.at_fork();
    run(alloc, &[0x0020_8023], (0x10_1000, 7, 0), &mut before).ok_or("no memory")?;
    follow(&mut changed, &before);
    assert!(rt; changed.has_page(1) && !changed.has_page(0));
    let mut task = Log::new(alloc, SHARED).ok().ok_or("no memory")?;
    run(alloc, &[0x0000_8183], (0x10_1000, 7, 0), &mut task).ok_or("no memory")?;
    run(alloc, &[0x0020_8023], (0x10_0000, 7, 0), &mut task).ok_or("no memory")?;
    task.at_fork();
    run(alloc, &[0x0020_8023], (0x3c_0000, 7, 0), &mut task).ok_or("no memory")?;
    follow(&mut changed, &task);
    assert!(rt; !changed.has_page(1) && !changed.has_page(0));
    assert!(rt; changed.has(Spot::Byte(0x3c_0000)));
    changed.clear();
    assert!(rt; !changed.has(Spot::Byte(0x3c_0000)));
    Ok(())
}
