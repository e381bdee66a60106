//! The input of a program, read whole.

ghost use Rattle.std.specs.Prelude.{◌≡◌, ◌<◌, ◌^◌, ℕ, List, All, IfOk, OnOk, IfErr};
ghost use Rattle.std.specs.Io.KnownBytes.{Consumes};
ghost use Rattle.bop_top.specs.CommandFaults.{Counts};
ghost use Rattle.bop_top.specs.TextSays.{IsInput, IsUnread};

use crate::outcome::Outcome;
use bop_ends::Source;
use rv_step::INPUT_BYTES;
use std::alloc::Global;

/// Reads the input to its end. A longer one is read until that is known.
pub fn read_input<S: Source>(alloc: Global, input: &mut S) -> Result<Vec<u8>, Outcome>
    ensures whole { IfOk result
        (λ bytes. Consumes (S.left input.old) (S.left input.new) bytes.items
        × IsInput bytes.items (S.left input.new)) }
    ensures small { IfOk result (λ bytes. All (λ b. b < 2 ^ 8) bytes.items) }
    ensures part { IfErr result
        (λ outcome. (taken : List ℕ) × Consumes (S.left input.old) (S.left input.new) taken
        × IsUnread outcome taken) }
    ensures kept { OnOk result (S.faults input.new ≡ S.faults input.old) }
    ensures counts { IfErr result (λ outcome. (h o : ℕ) → Counts outcome
        (record { shelf = h; input = S.faults input.old; output = o })
        (record { shelf = h; input = S.faults input.new; output = o })) }
{
    let mut bytes = Vec::new(alloc);
    let mut piece = [0; 4096];
    while bytes.len() <= INPUT_BYTES {
        let Ok(count) = input.read(&mut piece) else {
            return Err(Outcome::ReadFault);
        };
        if count == 0 {
            bytes_are_small(&bytes);
            return Ok(bytes);
        }
        if bytes.extend_from_slice(&piece[..count]).is_err() {
            return Err(Outcome::OutOfMemory);
        }
    }
    Err(Outcome::InputTooLong)
}

/// Bytes are below 256. It does nothing: its contract is the law.
fn bytes_are_small(bytes: &[u8])
    ensures { All (λ b. b < 2 ^ 8) bytes.now }
{}
