//! Code as it grows.

ghost use Rattle.std.specs.Prelude.{◌≡◌, ◌<◌, ◌↔◌, ◌++◌, length, All, Err, IfOk, IfErr, OnOk, OnErr};
ghost use Rattle.bop_bits.specs.declared.map.TheConstants.{CODE_WORDS};
ghost use Rattle.rv_code.specs.Step.{address_of};
ghost use Rattle.rv_code.specs.Table.{IsInstr};
ghost use Rattle.low_labels.specs.declared.fault.AsmFault.TheVariants.{CodeTooLong, OutOfMemory};
ghost use Rattle.low_labels.specs.Closed.{words_of};
ghost use Rattle.low_labels.specs.Emission.{nothing, fresh, emit, IsLine, IsTooLong};
ghost use Rattle.low_labels.specs.Operation.{Do, Jump, Branch, Mark};

use crate::fault::AsmFault;
use crate::label::Label;
use crate::line::{Line, instr_of};
use crate::test::Test;
use bop_bits::{CODE_FROM, CODE_WORDS};
use rv_code::{Instr, encode};
use std::alloc::Global;
use std::marker::Model;

/// Code as it grows: a word is an instruction or a jump to a label, and a label has a place in it
/// or none yet.
#[derive(Drop)]
pub struct Asm {
    alloc: Global,
    lines: Vec<Line>,
    places: Vec<Option<usize>>,
}

impl Model for Asm {
    ghost use Rattle.low_labels.specs.Emission.{Emission, IsEmission};

    ghost Value = { Emission };

    ghost view = { λ asm. record { lines = asm.lines.items; places = asm.places.items } };

    ghost invariant = { λ asm. IsEmission asm.lines.items asm.places.items };
}

impl Asm {
    pub fn new(alloc: Global) -> Asm
        ensures { result ≡ nothing }
    {
        Asm {
            alloc,
            lines: Vec::new(alloc),
            places: Vec::new(alloc),
        }
    }

    /// A new label, which has no place yet.
    pub fn label(&mut self) -> Result<Label, AsmFault>
        ensures given { IfOk result (λ label. label ≡ length self.old.places) }
        ensures fresh { OnOk result (self.new ≡ fresh self.old) }
        ensures refused { OnErr result (self.new ≡ self.old) }
        ensures lack { IfErr result (λ fault. fault ≡ OutOfMemory) }
    {
        let number = self.places.len();
        self.places.push(None)?;
        Ok(Label { number })
    }

    /// Puts a label here: before the next word.
    pub fn place(&mut self, label: Label)
        requires { label < length self.old.places }
        ensures { self.new ≡ emit (Mark label) self.old }
    {
        self.places[label.number] = Some(self.lines.len());
    }

    /// The address of the next word.
    pub fn here(&self) -> u32
        ensures { result ≡ address_of (length self.now.lines) }
    {
        CODE_FROM + 4 * self.lines.len() as u32
    }

    /// Adds an instruction.
    pub fn op(&mut self, instr: Instr) -> Result<(), AsmFault>
        requires { IsInstr instr }
        ensures added { OnOk result (self.new ≡ emit (Do instr) self.old) }
        ensures refused { OnErr result (self.new ≡ self.old) }
        ensures too_long { result ≡ Err CodeTooLong ↔ IsTooLong 1 self.old }
    {
        self.add(&[Line::Do(instr)])
    }

    /// Adds a jump to a label, which leaves the address behind it in a register.
    pub fn jump(&mut self, rd: u8, to: Label) -> Result<(), AsmFault>
        requires rd { rd < 32 }
        requires to { to < length self.old.places }
        ensures added { OnOk result (self.new ≡ emit (Jump rd to) self.old) }
        ensures refused { OnErr result (self.new ≡ self.old) }
        ensures too_long { result ≡ Err CodeTooLong ↔ IsTooLong 1 self.old }
    {
        self.add(&[Line::Jump(rd, to)])
    }

    /// Adds a branch to a label: a branch past a jump, since a branch alone reaches 4 KiB.
    pub fn branch(&mut self, test: Test, rs1: u8, rs2: u8, to: Label) -> Result<(), AsmFault>
        requires rs1 { rs1 < 32 }
        requires rs2 { rs2 < 32 }
        requires to { to < length self.old.places }
        ensures added { OnOk result (self.new ≡ emit (Branch test rs1 rs2 to) self.old) }
        ensures refused { OnErr result (self.new ≡ self.old) }
        ensures too_long { result ≡ Err CodeTooLong ↔ IsTooLong 2 self.old }
    {
        self.add(&[Line::Do(test.unless(rs1, rs2)), Line::Jump(0, to)])
    }

    /// The words of the code, each jump to the place of its label, or to the first word where the
    /// label has no place.
    #[tactic(auto, using(crate::proofs::ClosedLemmas::words_more, crate::proofs::ClosedLemmas::length_words))]
    pub fn close(self) -> Result<Vec<u32>, AsmFault>
        ensures words { IfOk result (λ words. words.items ≡ words_of self) }
        ensures lack { IfErr result (λ fault. fault ≡ OutOfMemory) }
    {
        let mut words = Vec::new(self.alloc);
        for line in &self.lines {
            let instr = instr_of(*line, words.len(), &self.places);
            words.push(encode(&instr))?;
        }
        Ok(words)
    }

    /// Adds words.
    fn add(&mut self, more: &[Line]) -> Result<(), AsmFault>
        requires { All (IsLine (length self.old.places)) more.now }
        ensures added { OnOk result
            (self.new ≡ record self.old { lines = self.old.lines ++ more.now }) }
        ensures refused { OnErr result (self.new ≡ self.old) }
        ensures too_long { result ≡ Err CodeTooLong ↔ IsTooLong (length more.now) self.old }
    {
        if self.lines.len() + more.len() > CODE_WORDS {
            return Err(AsmFault::CodeTooLong);
        }
        self.lines.extend_from_slice(more)?;
        Ok(())
    }
}
