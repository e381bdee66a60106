//! Acts on values that are at hand.

ghost use Rattle.std.specs.Prelude.{◌≡◌, ◌||◌, ◌&&◌, ◌≤◌, ◌%◌, ◌^◌, ℤ, pos, true, ◌+ℤ◌, ◌*ℤ◌, ◌-ℤ◌, neg_ℤ, nat_abs, int_div, FitsSigned, IfSome};
ghost use Rattle.std.specs.Int.{w32, w64, cast_unsigned};
ghost use Rattle.c_tree.specs.Arithmetic.{unary_word};
ghost use Rattle.c_meaning.specs.private.Acts.{stepped_at};
ghost use Rattle.c_semantics.specs.Eval.{binary_act, combined, assigned, arithmetic, sum, difference, other_act, compared, is_unsigned, amount, step_operator, outcome, getchar, put};
ghost use Rattle.c_meaning.specs.private.EvaluatorState.{Ran, SameSteps};
ghost use Rattle.c_semantics.specs.Pointers.{along, moved, distance};

use crate::halt::Halt;
use crate::machine::Machine;
use crate::machine::act::{Assignment, BinaryAct, Lvalue, Stepping};
use c_rules::{binary_word, unary_word};
use c_semantics::Operand;
use c_tree::{Binary, END_OF_FILE, Group, Place, Step, Unary, Undefined};

/// What `++` or `--` does with a value and 1.
fn operator_of(how: Step) -> Binary
    ensures { result ≡ step_operator how }
{
    match how {
        Step::RaiseFirst | Step::RaiseLast => Binary::Plus,
        Step::LowerFirst | Step::LowerLast => Binary::Minus,
    }
}

/// The number of elements that an integer's word stands for.
fn elements_of(operand: Operand, value: u32) -> Elements
    ensures { result.count ≡ amount operand value }
{
    match operand {
        Operand::Signed => Elements {
            count: i64::from(value.cast_signed()),
        },
        Operand::Unsigned | Operand::Pointer(_) => Elements {
            count: i64::from(value),
        },
    }
}

/// A number of elements that a pointer is moved by.
#[derive(Clone, Copy)]
struct Elements {
    count: i64,
    ghost word: { nat_abs count ≤ 2 ^ 32 },
}

/// Where a pointer leads, as a number.
#[derive(Clone, Copy)]
struct Destination {
    exact: i64,
    ghost within: { FitsSigned w64 exact },
}

impl Elements {
    /// As many elements the other way.
    fn back(self) -> Elements
        ensures { result.count ≡ neg_ℤ self.count }
    {
        Elements { count: -self.count }
    }

    /// Where a pointer leads that is moved by them, as far as 64 bits go. The objects of a program that has a layout are far smaller.
    fn destination(self, size: u64, pointer: u32) -> Option<Destination>
        ensures { IfSome result (λ to. to.exact ≡ pos pointer +ℤ (self.count *ℤ pos size)) }
    {
        let bytes = self.count.checked_mul(i64::try_from(size).ok()?)?;
        let exact = bytes.checked_add(i64::from(pointer))?;
        Some(Destination { exact })
    }
}

/// The elements from one pointer to another, toward zero, as a word, as far as 32 bits go. The objects of a program that has a layout have no more, and an element of a program that is accepted has bytes.
fn elements_between(size: u64, x: u32, y: u32) -> Option<u32>
    ensures { IfSome result (λ count. count
        ≡ cast_unsigned w32 (int_div (pos x -ℤ pos y) (pos size))) }
{
    let bytes = i64::from(x) - i64::from(y);
    let elements = bytes.checked_div(i64::try_from(size).ok()?)?;
    match i32::try_from(elements) {
        Ok(elements) => Some(elements.cast_unsigned()),
        Err(_) => None,
    }
}

impl Machine {
    /// What arithmetic comes to.
    fn outcome(&self, word: Result<u32, Undefined>, at: Place) -> Result<u32, Halt>
        ensures { Ran (outcome word at) self.now self.now result }
    {
        match word {
            Ok(value) => Ok(value),
            Err(act) => Err(Halt::Undefined(act, at)),
        }
    }

    /// Arithmetic on two integers.
    fn arithmetic(&self, act: BinaryAct, x: u32, y: u32) -> Result<u32, Halt>
        ensures { Ran (arithmetic act.op act.left act.right x y act.at) self.now self.now result }
    {
        let shift = act.op.group().is_shift();
        let unsigned = act.left.is_unsigned() || !shift && act.right.is_unsigned();
        self.outcome(binary_word(act.op, unsigned, x, y), act.at)
    }

    /// A destination, where it is along one object with a pointer. Only then does it have to be a word, which it is where a program has a layout.
    fn reach(&self, pointer: u32, to: Destination, at: Place) -> Result<u32, Halt>
        ensures { Ran (along (pos pointer) to.exact (nat_abs to.exact) at) self.now self.now
            result }
    {
        if !self.memory.along(u64::from(pointer), to.exact) {
            return Err(Halt::Undefined(Undefined::Pointer, at));
        }
        match u32::try_from(to.exact) {
            Ok(address) => Ok(address),
            Err(_) => Err(Halt::OutOfMemory),
        }
    }

    /// A pointer that is moved by so many elements.
    fn move_pointer(&self, size: u64, by: Elements, pointer: u32, at: Place) -> Result<u32, Halt>
        ensures { Ran (moved size by.count pointer at) self.now self.now result }
    {
        match by.destination(size, pointer) {
            Some(to) => self.reach(pointer, to, at),
            None => Err(Halt::OutOfMemory),
        }
    }

    /// The elements from one pointer to another, toward zero.
    fn distance(&self, size: u64, x: u32, y: u32, at: Place) -> Result<u32, Halt>
        ensures { Ran (distance size x y at) self.now self.now result }
    {
        if !self.memory.along(u64::from(x), i64::from(y)) {
            return Err(Halt::Undefined(Undefined::Pointer, at));
        }
        elements_between(size, x, y).ok_or(Halt::OutOfMemory)
    }

    /// Two pointers, compared.
    fn compare(&self, op: Binary, x: u32, y: u32, at: Place) -> Result<u32, Halt>
        ensures { Ran (compared op x y at) self.now self.now result }
    {
        if op.group().is_order() && !self.memory.along(u64::from(x), i64::from(y)) {
            return Err(Halt::Undefined(Undefined::Pointer, at));
        }
        self.outcome(binary_word(op, true, x, y), at)
    }

    /// `x + y`, where one may be a pointer.
    fn sum(&self, act: BinaryAct, x: u32, y: u32) -> Result<u32, Halt>
        ensures { Ran (sum act.op act.left act.right x y act.at) self.now self.now result }
    {
        match act.left {
            Operand::Pointer(size) => {
                self.move_pointer(size, elements_of(act.right, y), x, act.at)
            }
            Operand::Signed | Operand::Unsigned => match act.right {
                Operand::Pointer(size) => {
                    self.move_pointer(size, elements_of(act.left, x), y, act.at)
                }
                Operand::Signed | Operand::Unsigned => { self.arithmetic(act, x, y) }
            },
        }
    }

    /// `x - y`, where x may be a pointer, or both.
    fn difference(&self, act: BinaryAct, x: u32, y: u32) -> Result<u32, Halt>
        ensures { Ran (difference act.op act.left act.right x y act.at) self.now self.now result }
    {
        match act.left {
            Operand::Pointer(size) => match act.right {
                Operand::Pointer(_) => self.distance(size, x, y, act.at),
                Operand::Signed | Operand::Unsigned => {
                    self.move_pointer(size, elements_of(act.right, y).back(), x, act.at)
                }
            },
            Operand::Signed | Operand::Unsigned => { self.arithmetic(act, x, y) }
        }
    }

    /// What an operator does that is neither `+` nor `-`.
    fn other_act(&self, act: BinaryAct, x: u32, y: u32) -> Result<u32, Halt>
        ensures { Ran (other_act act.op act.left act.right x y act.at) self.now self.now result }
    {
        match act.left {
            Operand::Pointer(_) => self.compare(act.op, x, y, act.at),
            Operand::Signed | Operand::Unsigned => self.arithmetic(act, x, y),
        }
    }

    /// What an operator does with two values.
    pub(crate) fn binary_act(&self, act: BinaryAct, x: u32, y: u32) -> Result<u32, Halt>
        ensures { Ran (binary_act act.op act.left act.right x y act.at) self.now self.now result }
    {
        match act.op.group() {
            Group::Sum => self.sum(act, x, y),
            Group::Difference => self.difference(act, x, y),
            _ => self.other_act(act, x, y),
        }
    }

    /// Combines what an object holds with a value, and stores it: the value that it held, and the one that it holds.
    pub(crate) fn combine(
        &mut self,
        act: BinaryAct,
        lvalue: Lvalue,
        address: u32,
        value: u32,
    ) -> Result<(u32, u32), Halt>
        ensures ran { Ran (combined act.op act.left act.right lvalue.held lvalue.place act.at
            address value) self.old self.new result }
        ensures steps { SameSteps self.old self.new }
    {
        let old = self.load(lvalue.held, address, lvalue.place)?;
        let combined = self.binary_act(act, old, value)?;
        let new = self.store(lvalue.held, u64::from(address), combined, act.at)?;
        Ok((old, new))
    }

    /// Assigns a value, combined by an operator with what was there or as it is.
    pub(crate) fn assign(&mut self, a: Assignment, address: u32, value: u32) -> Result<u32, Halt>
        ensures ran { Ran (assigned a.how a.left a.right a.to.held a.to.place a.at address value)
            self.old self.new result }
        ensures steps { SameSteps self.old self.new }
    {
        let Some(op) = a.how else {
            return self.store(a.to.held, u64::from(address), value, a.at);
        };
        let act = BinaryAct {
            op,
            left: a.left,
            right: a.right,
            at: a.at,
        };
        let (_, new) = self.combine(act, a.to, address, value)?;
        Ok(new)
    }

    /// Raises or lowers what an object holds by 1.
    #[tactic(auto, unfolding(crate::specs::private::Acts::stepped_at))]
    pub(crate) fn step(&mut self, s: Stepping, address: u32) -> Result<u32, Halt>
        ensures ran { Ran (stepped_at s.how s.operand s.of.held s.of.place s.at address) self.old
            self.new result }
        ensures steps { SameSteps self.old self.new }
    {
        let act = BinaryAct {
            op: operator_of(s.how),
            left: s.operand,
            right: Operand::Signed,
            at: s.at,
        };
        let (old, new) = self.combine(act, s.of, address, 1)?;
        Ok(match s.how {
            Step::RaiseFirst | Step::LowerFirst => new,
            Step::RaiseLast | Step::LowerLast => old,
        })
    }

    /// What an operator does with one value.
    pub(crate) fn unary_act(
        &self,
        op: Unary,
        c: Operand,
        value: u32,
        at: Place,
    ) -> Result<u32, Halt>
        ensures { Ran (outcome (unary_word op (is_unsigned c) value) at) self.now self.now result }
    {
        self.outcome(unary_word(op, c.is_unsigned(), value), at)
    }

    /// The next byte of the input, or -1 as a word at its end.
    pub(crate) fn getchar(&mut self, input: &[u8]) -> Result<Option<u32>, Halt>
        ensures ran { Ran (getchar input.now) self.old self.new result }
        ensures steps { SameSteps self.old self.new }
    {
        match input.get(self.cursor) {
            Some(byte) => {
                self.cursor += 1;
                Ok(Some(u32::from(*byte)))
            }
            None => Ok(Some(END_OF_FILE)),
        }
    }

    /// Puts out a number's lowest byte.
    pub(crate) fn putchar(&mut self, value: u32) -> Result<Option<u32>, Halt>
        ensures ran { Ran (put (value % 2 ^ 8)) self.old self.new result }
        ensures steps { SameSteps self.old self.new }
    {
        let byte = value % 256;
        self.output.push(byte as u8)?;
        Ok(Some(byte))
    }
}
