//! Laws of the words.

ghost use Rattle.std.specs.Prelude.{◌≡◌, ℕ, List};
ghost use Rattle.bop_words.specs.declared.limits.TheConstants.{NUMBER_DIGITS, REGIONS_LIMIT, USUAL_BUDGET, USUAL_GROUP, USUAL_WORKERS, WORKERS_LIMIT};
ghost use Rattle.bop_words.specs.RequestBounds.{HasBounds};
ghost use Rattle.bop_words.specs.WordRequests.{Request, IsRequest};

/// The limits and the usual numbers.
pub fn words_in_numbers()
    ensures digits { NUMBER_DIGITS ≡ 13 }
    ensures workers { WORKERS_LIMIT ≡ 16 }
    ensures regions { REGIONS_LIMIT ≡ 10000 }
    ensures usual_workers { USUAL_WORKERS ≡ 4 }
    ensures usual_group { USUAL_GROUP ≡ 4 }
    ensures usual_budget { USUAL_BUDGET ≡ 1000000000 }
{}

/// Words ask for one thing at most.
pub fn one_request()
    ensures { (words : List (List ℕ)) (a b : Request)
        → IsRequest words a → IsRequest words b → a ≡ b }
{}

/// The numbers that words ask for are in the ranges of their options.
pub fn requests_are_bounded()
    ensures { (words : List (List ℕ)) (request : Request)
        → IsRequest words request → HasBounds request }
{}
