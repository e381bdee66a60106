//! Laws of what a text is to the compiler, and of what its program does.

ghost use Rattle.std.specs.Prelude.{◌≡◌, ◌<◌, ◌^◌, ℕ, List, All};
ghost use Rattle.c_tree.specs.Item.{Item};
ghost use Rattle.low_stmt.specs.TextReadiness.{IsReadyText};
ghost use Rattle.low_link.specs.Front.{Spells, Fits, IsAccepted, IsSource, Refuses};
ghost use Rattle.low_link.specs.Refused.{IsRejection};
ghost use Rattle.low_link.specs.SourceSimulation.{IsSimulated};
ghost use Rattle.low_link.specs.declared.refused.Refused.{Refused};

/// A text has at most one answer: its tree, or one fault, want of memory aside.
pub fn one_answer_of_a_text()
    ensures trees { (text : List ℕ) (ps qs : List Item) → Spells text ps → Spells text qs
        → ps ≡ qs }
    ensures refusals { (text : List ℕ) (r q : Refused) → Refuses text r → Refuses text q
        → IsRejection r → IsRejection q → r ≡ q }
    ensures apart { (text : List ℕ) (ps : List Item) (r : Refused) → IsSource text ps
        → Refuses text r → IsRejection r → ⊥ }
{}

/// An accepted text that fits into the memory is ready for its code.
pub fn a_text_that_fits_is_ready()
    ensures { (text : List ℕ) (ps : List Item) → IsAccepted text ps → Fits ps → IsReadyText ps }
{}

/// The program of a text that the compiler takes does on the machine what is meant, whatever the
/// input and the budget.
pub fn a_program_does_what_is_meant()
    ensures { (text : List ℕ) (ps : List Item) → IsSource text ps → (input : List ℕ)
        → All (λ b. b < 2 ^ 8) input → (budget : ℕ) → IsSimulated ps input budget }
{}
