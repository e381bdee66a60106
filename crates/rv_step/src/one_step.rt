//! One step.

ghost use Rattle.std.specs.Prelude.{◌≡◌, ◌≢◌, ◌≤◌, ◌∷◌, ℕ, List, length, true};
ghost use Rattle.access_log.specs.Noted.{HoldsAfter, HoldsSame};
ghost use Rattle.access_log.specs.declared.spot.Spot.TheVariants.{Register};
ghost use Rattle.bop_bits.specs.declared.map.TheConstants.{CODE_WORDS};
ghost use Rattle.rv_code.specs.State.{Running};
ghost use Rattle.rv_code.specs.Step.{step, performs, fetch as word_at};
ghost use Rattle.rv_code.specs.Asked.{IsEffect};
ghost use Rattle.rv_code.specs.Table.{IsInstr, first_register, second_register};
ghost use Rattle.rv_step.specs.EventCalls.{event_of, event_of_effect, event_at};
ghost use Rattle.rv_step.specs.Footprint.{effect_reads, effect_writes, reads_at, writes_at};
ghost use Rattle.rv_step.specs.Stepping.{Leads, state_of};
ghost use Rattle.rv_step.specs.declared.limits.TheConstants.{INPUT_BYTES};
ghost use Rattle.rv_step.specs.declared.stepped.Stepped.TheVariants as Stepped;

use crate::cpu::Cpu;
use crate::job::Job;
use crate::noting::{make_room, note_effect, note_operands};
use crate::perform::perform;
use crate::stepped::Stepped;
use access_log::Log;
use bop_bits::CODE_FROM;
use page_image::Image;
use rv_code::{Effect, Instr, Stop, Trap, asks, decode};

/// One step of a job's program on its input. Over an owned image it takes no memory.
pub fn step_plain(job: &Job, cpu: &mut Cpu, image: &mut Image) -> Stepped
    ensures step { (count : ℕ) (output : List ℕ) → Leads result
        (record { cpu = cpu.old; image = image.old }) (record { cpu = cpu.new; image = image.new })
        count output
        (step job.now.program.code job.now.input
        (Running (state_of (record { cpu = cpu.old; image = image.old }) count output))) }
    ensures event { event_of result ≡ event_at job.now.program.code cpu.old.x cpu.old.pc }
    ensures owned { image.old.owned ≡ true → result ≢ Stepped.NoMemory }
    ensures kept { image.new.owned ≡ image.old.owned }
{
    let Some(word) = fetch(job.program.code.get(), cpu.pc) else {
        return Stepped::Ended(Stop::Trap(Trap::Fetch, cpu.pc));
    };
    let Some(instr) = decode(word) else {
        return Stepped::Ended(Stop::Trap(Trap::Illegal, cpu.pc));
    };
    let effect = asks(&instr, &cpu.x, cpu.pc);
    perform(job.input.get(), effect, cpu, image)
}

/// One step, with what it reads and writes noted in a log.
pub fn step(job: &Job, cpu: &mut Cpu, image: &mut Image, log: &mut Log) -> Stepped
    ensures step { (count : ℕ) (output : List ℕ) → Leads result
        (record { cpu = cpu.old; image = image.old }) (record { cpu = cpu.new; image = image.new })
        count output
        (step job.now.program.code job.now.input
        (Running (state_of (record { cpu = cpu.old; image = image.old }) count output))) }
    ensures event { result ≢ Stepped.NoMemory
        → event_of result ≡ event_at job.now.program.code cpu.old.x cpu.old.pc }
    ensures noted { result ≢ Stepped.NoMemory → HoldsAfter log.old log.new
        (reads_at job.now.program.code cpu.old.x cpu.old.pc)
        (writes_at job.now.program.code cpu.old.x cpu.old.pc) }
    ensures unnoted { result ≡ Stepped.NoMemory → HoldsSame log.old log.new }
    ensures kept { image.new.owned ≡ image.old.owned }
{
    let Some(word) = fetch(job.program.code.get(), cpu.pc) else {
        return Stepped::Ended(Stop::Trap(Trap::Fetch, cpu.pc));
    };
    let Some(instr) = decode(word) else {
        return Stepped::Ended(Stop::Trap(Trap::Illegal, cpu.pc));
    };
    let effect = asks(&instr, &cpu.x, cpu.pc);
    perform_noted(job.input.get(), &instr, effect, cpu, image, log)
}

/// Does what an instruction asks for, and notes it.
fn perform_noted(
    input: &[u8],
    instr: &Instr,
    effect: Effect,
    cpu: &mut Cpu,
    image: &mut Image,
    log: &mut Log,
) -> Stepped
    requires instr { IsInstr instr.now }
    requires effect { IsEffect effect }
    requires short { length input.now ≤ INPUT_BYTES }
    ensures step { (count : ℕ) (output : List ℕ) → Leads result
        (record { cpu = cpu.old; image = image.old }) (record { cpu = cpu.new; image = image.new })
        count output
        (performs input.now (state_of (record { cpu = cpu.old; image = image.old }) count output)
        effect) }
    ensures event { result ≢ Stepped.NoMemory → event_of result ≡ event_of_effect effect cpu.old.x }
    ensures noted { result ≢ Stepped.NoMemory → HoldsAfter log.old log.new
        (Register (first_register instr.now) ∷ Register (second_register instr.now)
        ∷ effect_reads effect) (effect_writes effect) }
    ensures unnoted { result ≡ Stepped.NoMemory → HoldsSame log.old log.new }
    ensures kept { image.new.owned ≡ image.old.owned }
{
    let Ok(()) = make_room(&effect, log) else {
        return Stepped::NoMemory;
    };
    match perform(input, effect, cpu, image) {
        Stepped::NoMemory => Stepped::NoMemory,
        answer => {
            note_operands(instr, log);
            note_effect(&effect, log);
            answer
        }
    }
}

/// The word at an address. Modulo 2^32, an address below the code is behind its end.
fn fetch(code: &[u32], pc: u32) -> Option<u32>
    requires { length code.now ≤ CODE_WORDS }
    ensures { result ≡ word_at code.now pc }
{
    let at = pc.wrapping_sub(CODE_FROM);
    if at % 4 != 0 {
        return None;
    }
    code.get((at / 4) as usize).copied()
}
