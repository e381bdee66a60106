//! What a step notes in a log.

ghost use Rattle.std.specs.Prelude.{◌≡◌, ◌<◌, ◌∷◌, [], ◌%◌, ◌==◌, true, OnOk};
ghost use Rattle.access_log.specs.Noted.{has_room_for, HoldsSame, Noted};
ghost use Rattle.access_log.specs.declared.spot.Spot.TheVariants.{Register, Byte};
ghost use Rattle.bop_bits.specs.MemoryNumbers.{is_in_memory as is_in_memory_of, Fits, IsSize};
ghost use Rattle.rv_code.specs.Asked.{IsEffect};
ghost use Rattle.rv_code.specs.declared.effect.Call.TheVariants as CallOf;
ghost use Rattle.rv_code.specs.Table.{IsInstr, first_register, second_register};
ghost use Rattle.rv_step.specs.Footprint.{span, call_reads, call_writes, unless_trapped, effect_reads, effect_writes};
ghost use Rattle.rv_step.specs.private.NoteRoom.{RoomFor, RoomForAccess};

use crate::perform::{A1, A2, is_in_memory};
use access_log::{Log, Spot};
use bop_ends::OutOfMemory;
use rv_code::{A0, Call, Effect, Instr, operands};

/// Makes room for what an effect touches.
pub fn make_room(effect: &Effect, log: &mut Log) -> Result<(), OutOfMemory>
    requires { IsEffect effect.now }
    ensures holds { HoldsSame log.old log.new }
    ensures room { OnOk result (RoomFor log.new effect.now) }
{
    match effect {
        Effect::Loads { at, size, .. } => room_for_access(*at, *size, log),
        Effect::Stores { at, size, .. } => room_for_access(*at, *size, log),
        _ => Ok(()),
    }
}

fn room_for_access(at: u32, size: u32, log: &mut Log) -> Result<(), OutOfMemory>
    requires { IsSize size }
    ensures holds { HoldsSame log.old log.new }
    ensures room { OnOk result (RoomForAccess log.new at size) }
{
    if at % size != 0 || !is_in_memory(at) {
        return Ok(());
    }
    log.room(Spot::Byte(at))
}

/// Notes the registers with whose values an instruction asks.
pub fn note_operands(instr: &Instr, log: &mut Log)
    requires { IsInstr instr.now }
    ensures { Noted log.old log.new
        (Register (first_register instr.now) ∷ Register (second_register instr.now) ∷ []) [] }
{
    let (first, second) = operands(instr);
    log.note_read(Spot::Register(first));
    log.note_read(Spot::Register(second));
}

/// Notes what an effect reads and writes beside them.
pub fn note_effect(effect: &Effect, log: &mut Log)
    requires effect { IsEffect effect.now }
    requires room { RoomFor log.old effect.now }
    ensures { Noted log.old log.new (effect_reads effect.now) (effect_writes effect.now) }
{
    match effect {
        Effect::Sets { rd, .. } => log.note_write(Spot::Register(*rd)),
        Effect::Loads { rd, at, size, .. } => note_load(*rd, *at, *size, log),
        Effect::Stores { at, size, .. } => note_store(*at, *size, log),
        Effect::Links { rd, to } => note_link(*rd, *to, log),
        Effect::Calls { which } => note_call(*which, log),
        Effect::Jumps { .. } | Effect::Proceeds | Effect::Breaks => {}
    }
}

fn note_link(rd: u8, to: u32, log: &mut Log)
    requires { rd < 32 }
    ensures { Noted log.old log.new []
        (unless_trapped (to % 4 == 0) true (Register rd ∷ [])) }
{
    if to % 4 == 0 {
        log.note_write(Spot::Register(rd));
    }
}

fn note_load(rd: u8, at: u32, size: u32, log: &mut Log)
    requires rd { rd < 32 }
    requires size { IsSize size }
    requires room { RoomForAccess log.old at size }
    ensures { Noted log.old log.new
        (unless_trapped (at % size == 0) (is_in_memory_of at) (span at size))
        (unless_trapped (at % size == 0) (is_in_memory_of at) (Register rd ∷ [])) }
{
    if at % size != 0 || !is_in_memory(at) {
        return;
    }
    note_bytes_read(at, size, log);
    log.note_write(Spot::Register(rd));
}

fn note_store(at: u32, size: u32, log: &mut Log)
    requires size { IsSize size }
    requires room { RoomForAccess log.old at size }
    ensures { Noted log.old log.new []
        (unless_trapped (at % size == 0) (is_in_memory_of at) (span at size)) }
{
    if at % size != 0 || !is_in_memory(at) {
        return;
    }
    note_bytes_written(at, size, log);
}

fn note_bytes_read(at: u32, size: u32, log: &mut Log)
    requires fits { Fits at size }
    requires room { has_room_for log.old (Byte at) ≡ true }
    ensures { Noted log.old log.new (span at size) [] }
{
    for i in 0..size {
        log.note_read(Spot::Byte(at + i));
    }
}

fn note_bytes_written(at: u32, size: u32, log: &mut Log)
    requires fits { Fits at size }
    requires room { has_room_for log.old (Byte at) ≡ true }
    ensures { Noted log.old log.new [] (span at size) }
{
    for i in 0..size {
        log.note_write(Spot::Byte(at + i));
    }
}

fn note_call(which: Call, log: &mut Log)
    ensures { Noted log.old log.new (call_reads which) (call_writes which) }
{
    match which {
        Call::Exit | Call::Begin | Call::End | Call::Wait => log.note_read(Spot::Register(A0)),
        Call::Get => note_get(log),
        Call::Put => note_put(log),
        Call::Post => note_post(log),
        Call::StackFull | Call::Unknown => {}
    }
}

fn note_get(log: &mut Log)
    ensures { Noted log.old log.new (call_reads CallOf.Get) (call_writes CallOf.Get) }
{
    log.note_read(Spot::Cursor);
    log.note_write(Spot::Cursor);
    log.note_write(Spot::Register(A0));
}

fn note_put(log: &mut Log)
    ensures { Noted log.old log.new (call_reads CallOf.Put) (call_writes CallOf.Put) }
{
    log.note_read(Spot::Register(A0));
    log.note_write(Spot::Register(A0));
}

fn note_post(log: &mut Log)
    ensures { Noted log.old log.new (call_reads CallOf.Post) [] }
{
    log.note_read(Spot::Register(A0));
    log.note_read(Spot::Register(A1));
    log.note_read(Spot::Register(A2));
}
