//! What an effect does to registers and image.

ghost use Rattle.std.specs.Prelude.{◌≡◌, ◌≤◌, ◌<◌, ◌%◌, ◌==◌, ◌≢◌, ℕ, List, length, true, None};
ghost use Rattle.bop_bits.specs.MemoryNumbers.{is_in_memory as is_in_memory_of, IsSize};
ghost use Rattle.page_image.specs.OwnedBytes.{OwnedBytes};
ghost use Rattle.rv_code.specs.Asked.{IsEffect};
ghost use Rattle.rv_code.specs.State.{with_register};
ghost use Rattle.rv_code.specs.Step.{performs, loads, stores, jumps, links, calls as calls_of};
ghost use Rattle.rv_code.specs.Word.{extended as extended_of, sum};
ghost use Rattle.rv_code.specs.declared.effect.Call.TheVariants as Call;
ghost use Rattle.rv_code.specs.declared.effect.Effect.TheVariants as Effect;
ghost use Rattle.rv_code.specs.declared.stop.Stop.TheVariants as Stop;
ghost use Rattle.rv_step.specs.EventCalls.{event_of, event_of_effect, event_of_call};
ghost use Rattle.rv_step.specs.Stepping.{Leads, state_of};
ghost use Rattle.rv_step.specs.declared.limits.TheConstants.{INPUT_BYTES};
ghost use Rattle.rv_step.specs.declared.stepped.Stepped.TheVariants as Stepped;

use crate::cpu::Cpu;
use crate::stepped::Stepped;
use bop_bits::{DATA_FROM, STACK_TO};
use page_image::Image;
use ppr_regions::Event;
use rv_code::{A0, Call, Effect, Stop, Trap, register};

/// The registers of the second and third argument of a call.
pub(crate) const A1: u8 = 11;

pub(crate) const A2: u8 = 12;

/// Does what an instruction asks for. Each size of a load or store has a path of its own, which
/// doesn't test it again.
pub fn perform(input: &[u8], effect: Effect, cpu: &mut Cpu, image: &mut Image) -> Stepped
    requires effect { IsEffect effect }
    requires short { length input.now ≤ INPUT_BYTES }
    ensures step { (count : ℕ) (output : List ℕ) → Leads result
        (record { cpu = cpu.old; image = image.old }) (record { cpu = cpu.new; image = image.new })
        count output
        (performs input.now (state_of (record { cpu = cpu.old; image = image.old }) count output)
        effect) }
    ensures event { event_of result ≡ event_of_effect effect cpu.old.x }
    ensures owned { image.old.owned ≡ true → result ≢ Stepped.NoMemory }
    ensures kept { image.new.owned ≡ image.old.owned }
{
    match effect {
        Effect::Sets { rd, value } => set(cpu, rd, value),
        Effect::Loads {
            rd,
            at,
            size,
            signed,
        } => match (size, signed) {
            (1, true) => load(cpu, image, rd, at, 1, true),
            (1, false) => load(cpu, image, rd, at, 1, false),
            (2, true) => load(cpu, image, rd, at, 2, true),
            (2, false) => load(cpu, image, rd, at, 2, false),
            _ => load(cpu, image, rd, at, size, signed),
        },
        Effect::Stores { at, size, value } => match size {
            1 => store(cpu, image, at, 1, value),
            2 => store(cpu, image, at, 2, value),
            _ => store(cpu, image, at, size, value),
        },
        Effect::Jumps { to } => jump(cpu, to),
        Effect::Links { rd, to } => link(cpu, rd, to),
        Effect::Proceeds => go_on(cpu),
        Effect::Breaks => trap(cpu, Trap::Break),
        Effect::Calls { which } => call(input, which, cpu),
    }
}

fn trap(cpu: &Cpu, why: Trap) -> Stepped
    ensures { result ≡ Stepped.Ended (Stop.Trap why cpu.now.pc) }
{
    Stepped::Ended(Stop::Trap(why, cpu.pc))
}

/// Goes on at the next instruction.
fn go_on(cpu: &mut Cpu) -> Stepped
    ensures cpu { cpu.new ≡ record cpu.old { pc = sum cpu.old.pc 4 } }
    ensures answer { result ≡ Stepped.Plain }
{
    cpu.go_on();
    Stepped::Plain
}

/// Writes a register and goes on.
fn set(cpu: &mut Cpu, rd: u8, value: u32) -> Stepped
    requires { rd < 32 }
    ensures cpu { cpu.new ≡ record cpu.old {
      x = with_register cpu.old.x rd value;
      pc = sum cpu.old.pc 4;
    } }
    ensures answer { result ≡ Stepped.Plain }
{
    cpu.write(rd, value);
    cpu.go_on();
    Stepped::Plain
}

fn jump(cpu: &mut Cpu, to: u32) -> Stepped
    ensures step { (image : OwnedBytes) (count : ℕ) (output : List ℕ) → Leads result
        (record { cpu = cpu.old; image = image }) (record { cpu = cpu.new; image = image })
        count output
        (jumps (state_of (record { cpu = cpu.old; image = image }) count output) to
        (to % 4 == 0)) }
    ensures event { event_of result ≡ None }
    ensures memory { result ≢ Stepped.NoMemory }
{
    if to % 4 != 0 {
        return trap(cpu, Trap::JumpAlign);
    }
    cpu.pc = to;
    Stepped::Plain
}

fn link(cpu: &mut Cpu, rd: u8, to: u32) -> Stepped
    requires { rd < 32 }
    ensures step { (image : OwnedBytes) (count : ℕ) (output : List ℕ) → Leads result
        (record { cpu = cpu.old; image = image }) (record { cpu = cpu.new; image = image })
        count output
        (links (state_of (record { cpu = cpu.old; image = image }) count output) rd to
        (to % 4 == 0)) }
    ensures event { event_of result ≡ None }
    ensures memory { result ≢ Stepped.NoMemory }
{
    if to % 4 != 0 {
        return trap(cpu, Trap::JumpAlign);
    }
    let next = cpu.pc.wrapping_add(4);
    cpu.write(rd, next);
    cpu.pc = to;
    Stepped::Plain
}

pub(crate) fn is_in_memory(at: u32) -> bool
    ensures { result ≡ is_in_memory_of at }
{
    DATA_FROM <= at && at < STACK_TO
}

/// A number of so many bytes as a word.
fn extended(signed: bool, size: u32, value: u32) -> u32
    requires { IsSize size }
    ensures { result ≡ extended_of signed size value }
{
    if !signed || size == 4 {
        return value;
    }
    if size == 1 {
        if value < 0x80 {
            value
        } else {
            value.wrapping_add(0xffff_ff00)
        }
    } else if value < 0x8000 {
        value
    } else {
        value.wrapping_add(0xffff_0000)
    }
}

/// Loads a number.
fn load(cpu: &mut Cpu, image: &Image, rd: u8, at: u32, size: u32, signed: bool) -> Stepped
    requires effect { IsEffect (Effect.Loads rd at size signed) }
    ensures step { (count : ℕ) (output : List ℕ) → Leads result
        (record { cpu = cpu.old; image = image.now }) (record { cpu = cpu.new; image = image.now })
        count output
        (loads (state_of (record { cpu = cpu.old; image = image.now }) count output) rd at size
        signed (at % size == 0) (is_in_memory_of at)) }
    ensures event { event_of result ≡ None }
    ensures memory { result ≢ Stepped.NoMemory }
{
    if at % size != 0 {
        return trap(cpu, Trap::LoadAlign);
    }
    if !is_in_memory(at) {
        return trap(cpu, Trap::Load);
    }
    let value = extended(signed, size, image.load(at, size));
    set(cpu, rd, value)
}

/// Stores a number.
fn store(cpu: &mut Cpu, image: &mut Image, at: u32, size: u32, value: u32) -> Stepped
    requires effect { IsEffect (Effect.Stores at size value) }
    ensures step { (count : ℕ) (output : List ℕ) → Leads result
        (record { cpu = cpu.old; image = image.old }) (record { cpu = cpu.new; image = image.new })
        count output
        (stores (state_of (record { cpu = cpu.old; image = image.old }) count output) at size value
        (at % size == 0) (is_in_memory_of at)) }
    ensures event { event_of result ≡ None }
    ensures owned { image.old.owned ≡ true → result ≢ Stepped.NoMemory }
    ensures kept { image.new.owned ≡ image.old.owned }
{
    if at % size != 0 {
        return trap(cpu, Trap::StoreAlign);
    }
    if !is_in_memory(at) {
        return trap(cpu, Trap::Store);
    }
    let next = cpu.pc.wrapping_add(4);
    match image.store(at, size, value) {
        Ok(()) => {
            cpu.pc = next;
            Stepped::Plain
        }
        Err(_) => Stepped::NoMemory,
    }
}

/// A call of the machine.
fn call(input: &[u8], which: Call, cpu: &mut Cpu) -> Stepped
    requires short { length input.now ≤ INPUT_BYTES }
    ensures step { (image : OwnedBytes) (count : ℕ) (output : List ℕ) → Leads result
        (record { cpu = cpu.old; image = image }) (record { cpu = cpu.new; image = image })
        count output
        (calls_of input.now (state_of (record { cpu = cpu.old; image = image }) count output)
        which) }
    ensures event { event_of result ≡ event_of_call which cpu.old.x }
    ensures memory { result ≢ Stepped.NoMemory }
{
    let a0 = register(&cpu.x, A0);
    match which {
        Call::Exit => Stepped::Ended(Stop::Exit(a0.cast_signed())),
        Call::Get => get(input, cpu),
        Call::Put => {
            set(cpu, A0, a0 % 256);
            Stepped::Put((a0 % 256) as u8)
        }
        Call::Begin => mark(cpu, Event::Begin(a0)),
        Call::End => mark(cpu, Event::End(a0)),
        Call::Post => {
            let (at, len) = (register(&cpu.x, A1), register(&cpu.x, A2));
            mark(
                cpu,
                Event::Post {
                    channel: a0,
                    at,
                    len,
                },
            )
        }
        Call::Wait => mark(cpu, Event::Wait { channel: a0 }),
        Call::StackFull => Stepped::Ended(Stop::StackFull),
        Call::Unknown => trap(cpu, Trap::Call),
    }
}

/// The next byte of the input, or -1.
fn get(input: &[u8], cpu: &mut Cpu) -> Stepped
    requires short { length input.now ≤ INPUT_BYTES }
    ensures step { (image : OwnedBytes) (count : ℕ) (output : List ℕ) → Leads result
        (record { cpu = cpu.old; image = image }) (record { cpu = cpu.new; image = image })
        count output
        (calls_of input.now (state_of (record { cpu = cpu.old; image = image }) count output)
        Call.Get) }
    ensures answer { result ≡ Stepped.Plain }
{
    match input.get(cpu.cursor as usize) {
        Some(byte) => {
            cpu.cursor += 1;
            set(cpu, A0, u32::from(*byte))
        }
        None => set(cpu, A0, u32::MAX),
    }
}

/// Goes on with an event.
fn mark(cpu: &mut Cpu, event: Event) -> Stepped
    ensures cpu { cpu.new ≡ record cpu.old { pc = sum cpu.old.pc 4 } }
    ensures answer { result ≡ Stepped.Marked event }
{
    cpu.go_on();
    Stepped::Marked(event)
}
