//! Random programs: what ran from a guess, merged into a state that agrees with it, is what running
//! from that state gives.

use crate::tests::jobs::job_of;
use access_log::{Log, Spot};
use bop_bits::{CODE_FROM, Classes};
use page_image::Image;
use rv_step::{Cpu, Job, Stepped, Stop, step, step_plain};
use std::test::Fail;

/// Page 0 is shared, page 1 checked, page 2 private.
const CLASSES: Classes = Classes {
    checked_from: 1,
    private_from: 2,
    private_to: 3,
};

/// How many words a program has, and how many steps it takes at most.
const WORDS: usize = 16;

/// The bytes that a program reaches: four at each of these addresses.
const PLACES: [u32; 4] = [0x10_0010, 0x10_1ffc, 0x10_2000, 0x3c_0004];

/// A sequence of numbers (Numerical Recipes' generator).
#[derive(Drop)]
struct Random {
    state: u32,
}

impl Random {
    fn next(&mut self) -> u32 {
        self.state = self
            .state
            .wrapping_mul(1_664_525)
            .wrapping_add(1_013_904_223);
        self.state >> 8
    }
}

/// An instruction over x4 to x7 for values and x20 to x23, which hold the places' addresses.
fn word(random: &mut Random) -> u32 {
    let rd = 4 + random.next() % 4;
    let rs1 = 4 + random.next() % 4;
    let rs2 = 4 + random.next() % 4;
    let base = 20 + random.next() % 4;
    let offset = random.next() % 4;
    match random.next() % 14 {
        // ADD, SUB, MUL, SLTU, XOR
        0 => 0x0000_0033 | rs2 << 20 | rs1 << 15 | rd << 7,
        1 => 0x4000_0033 | rs2 << 20 | rs1 << 15 | rd << 7,
        2 => 0x0200_0033 | rs2 << 20 | rs1 << 15 | rd << 7,
        3 => 0x0000_3033 | rs2 << 20 | rs1 << 15 | rd << 7,
        // ADDI
        4 => 0x0000_0013 | (random.next() % 16) << 20 | rs1 << 15 | rd << 7,
        // LBU, LW, LH
        5 => 0x0000_4003 | offset << 20 | base << 15 | rd << 7,
        6 => 0x0000_2003 | base << 15 | rd << 7,
        7 => 0x0000_1003 | (offset / 2 * 2) << 20 | base << 15 | rd << 7,
        // SB, SW, SH
        8 => 0x0000_0023 | rs2 << 20 | base << 15 | offset << 7,
        9 => 0x0000_2023 | rs2 << 20 | base << 15,
        10 => 0x0000_1023 | rs2 << 20 | base << 15 | (offset / 2 * 2) << 7,
        // BLTU over the next word, or to the one before the last
        11 => 0x0000_6463 | rs2 << 20 | rs1 << 15,
        12 => 0xfe00_6ce3 | rs2 << 20 | rs1 << 15,
        // ECALL, which takes a byte of the input where x17 is 1, and puts one where it is 2
        _ => 0x0000_0073,
    }
}

fn byte(image: &Image, at: u32) -> u32 {
    if 0x10_0000 <= at && at < 0x40_0000 {
        image.load(at, 1)
    } else {
        0
    }
}

fn put(image: &mut Image, at: u32, value: u32) {
    if 0x10_0000 <= at && at < 0x40_0000 {
        let _ = image.store(at, 1, value);
    }
}

fn has(log: &Log, at: u32, wrote: bool) -> bool {
    let places = if wrote { log.wrote() } else { log.first() };
    0x10_0000 <= at && at < 0x40_0000 && places.has(Spot::Byte(at))
}

/// The place of one of the 16 bytes.
fn place(i: u8) -> u32 {
    PLACES[(i / 4 % 4) as usize].wrapping_add(u32::from(i % 4))
}

/// A machine over one image.
#[derive(Drop)]
struct Runner {
    cpu: Cpu,
    image: Image,
    put: u64,
    stop: Option<Stop>,
}

impl Runner {
    /// Takes steps until the machine stops, at most as many as a program has words, and notes them
    /// where there is a log.
    fn run(&mut self, job: &Job, mut log: Option<&mut Log>) {
        for _ in 0..WORDS {
            let answer = match &mut log {
                Some(log) => step(job, &mut self.cpu, &mut self.image, log),
                None => step_plain(job, &mut self.cpu, &mut self.image),
            };
            match answer {
                Stepped::Put(byte) => {
                    self.put = self.put.wrapping_mul(257).wrapping_add(u64::from(byte) + 1);
                }
                Stepped::Ended(how) => {
                    self.stop = Some(how);
                    return;
                }
                _ => {}
            }
        }
    }
}

/// A guess of random values.
fn guess(random: &mut Random, image: &mut Image) -> Cpu {
    let mut cpu = Cpu {
        x: [0; 32],
        pc: CODE_FROM,
        cursor: random.next() % 3,
    };
    for r in 4..8 {
        cpu.x[r] = random.next();
    }
    cpu.x[17] = 1 + random.next() % 2;
    for r in 0..4 {
        cpu.x[20 + r] = PLACES[r];
    }
    for i in 0..16 {
        put(image, place(i), random.next() % 256);
    }
    cpu
}

/// A state that agrees with a guess in what the log says was first touched.
fn truth(random: &mut Random, start: &Cpu, bytes: &[u32; 16], log: &Log, image: &mut Image) -> Cpu {
    let mut cpu = *start;
    for r in 1..32u8 {
        if !log.first().has(Spot::Register(r)) {
            cpu.x[r as usize] = random.next();
        }
    }
    if !log.first().has(Spot::Cursor) {
        cpu.cursor = random.next() % 3;
    }
    for i in 0..16u8 {
        let value = if has(log, place(i), false) {
            bytes[i as usize]
        } else {
            random.next() % 256
        };
        put(image, place(i), value);
    }
    cpu
}

fn bytes(image: &Image) -> [u32; 16] {
    let mut bytes = [0; 16];
    for i in 0..16u8 {
        bytes[i as usize] = byte(image, place(i));
    }
    bytes
}

/// Whether a state is the merge of a true state with the end of a run.
fn is_merge(run: &Runner, start: &Cpu, before: &[u32; 16], end: &Runner, log: &Log) -> bool {
    let mut same = run.cpu.pc == end.cpu.pc && run.put == end.put && run.stop == end.stop;
    for r in 1..32u8 {
        let i = r as usize;
        let from = if log.wrote().has(Spot::Register(r)) {
            end.cpu.x[i]
        } else {
            start.x[i]
        };
        same = same && run.cpu.x[i] == from;
    }
    let cursor = if log.wrote().has(Spot::Cursor) {
        end.cpu.cursor
    } else {
        start.cursor
    };
    same = same && run.cpu.cursor == cursor;
    for i in 0..16u8 {
        let at = place(i);
        let from = if has(log, at, true) {
            byte(&end.image, at)
        } else {
            before[i as usize]
        };
        same = same && byte(&run.image, at) == from;
    }
    same
}

#[test]
fn what_ran_from_a_guess_is_replayed(rt: HostRuntime) -> Result<(), Fail> {
    let alloc = rt.alloc();
    let mut random = Random { state: 19 };
    let blank = Cpu {
        x: [0; 32],
        pc: CODE_FROM,
        cursor: 0,
    };
    let open = || Image::open(alloc, &[]).ok().ok_or("no memory");
    let mut ahead = Runner {
        cpu: blank,
        image: open()?,
        put: 0,
        stop: None,
    };
    let mut behind = Runner {
        cpu: blank,
        image: open()?,
        put: 0,
        stop: None,
    };
    for program in 0..1_000 {
        let mut code = [0; WORDS];
        for i in 0..WORDS {
            code[i] = word(&mut random);
        }
        let job = job_of(alloc, &code, b"ab").ok_or("no memory")?;
        let mut log = Log::new(alloc, CLASSES).ok().ok_or("no memory")?;
        ahead.cpu = guess(&mut random, &mut ahead.image);
        let (start, before) = (ahead.cpu, bytes(&ahead.image));
        (ahead.put, behind.put) = (0, 0);
        (ahead.stop, behind.stop) = (None, None);
        ahead.run(&job, Some(&mut log));
        behind.cpu = truth(&mut random, &start, &before, &log, &mut behind.image);
        let (start, before) = (behind.cpu, bytes(&behind.image));
        behind.run(&job, None);
        assert!(rt;
            is_merge(&behind, &start, &before, &ahead, &log),
            "program {}",
            program
        );
    }
    Ok(())
}
