//! Laws of limits and of readings.

ghost use Rattle.std.specs.Prelude.{◌≡◌, ℕ, List};
ghost use Rattle.c_token.specs.Text.{AreTokensOf, IsFaultOf};
ghost use Rattle.c_token.specs.declared.fault.TokenFault.{TokenFault};
ghost use Rattle.c_token.specs.declared.limits.TheConstants.{TEXT_BYTES};
ghost use Rattle.c_token.specs.declared.token.Token.{Token};

/// Limits in numbers.
pub fn limits_in_numbers()
    ensures text { TEXT_BYTES ≡ 1048576 }
{}

/// A text has one answer: its tokens, or its first fault.
pub fn one_answer()
    ensures tokens { (text : List ℕ) (a b : List Token) → AreTokensOf text a → AreTokensOf text b
        → a ≡ b }
    ensures faults { (text : List ℕ) (r q : TokenFault) → IsFaultOf text r → IsFaultOf text q
        → r ≡ q }
    ensures apart { (text : List ℕ) (a : List Token) (r : TokenFault) → AreTokensOf text a
        → IsFaultOf text r → ⊥ }
{}
