//! Laws of code with labels.

ghost use Rattle.std.specs.Prelude.{◌≡◌, ◌≤◌, ℕ, List, length};
ghost use Rattle.bop_bits.specs.declared.map.TheConstants.{CODE_WORDS};
ghost use Rattle.low_labels.specs.Closed.{place_in, words_of, ArePlacedOnce};
ghost use Rattle.low_labels.specs.Emission.{Emission, fresh, emit_all, labelled, AreOperations};
ghost use Rattle.low_labels.specs.Operation.{Operation, width_of};
ghost use Rattle.low_labels.specs.Placed.{HasAt};

/// A label may be made before operations that don't name it, or after them.
pub fn labels_may_come_first()
    ensures { (e : Emission) (ops : List Operation) → AreOperations (length e.places) ops
        → emit_all ops (fresh e) ≡ fresh (emit_all ops e) }
{}

/// In the words of operations that place no label twice, each operation is at its place, and each
/// jump leads to where its label is placed.
pub fn closed_code_has_its_operations()
    ensures { (labels : ℕ) (ops : List Operation) → AreOperations labels ops
        → ArePlacedOnce ops → width_of ops ≤ CODE_WORDS
        → let e = emit_all ops (labelled labels) in HasAt (words_of e) (place_in e.places) 0 ops }
{}
