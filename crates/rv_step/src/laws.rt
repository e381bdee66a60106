//! Laws of limits and of replayed steps.

ghost use Rattle.std.specs.Prelude.{◌≡◌};
ghost use Rattle.rv_step.specs.Replay.{ReplayLaw};
ghost use Rattle.rv_step.specs.ValidRecord.{RecordsReplay};
ghost use Rattle.rv_step.specs.declared.limits.TheConstants.{BUDGET_LIMIT, GROUP_LIMIT, INPUT_BYTES};

/// The limits of jobs in numbers.
pub fn limits_in_numbers()
    ensures budget { BUDGET_LIMIT ≡ 1000000000000 }
    ensures group { GROUP_LIMIT ≡ 16 }
    ensures input { INPUT_BYTES ≡ 16777216 }
{}

/// Steps that were taken from a guess are those of the true state, where the two agree in what the
/// steps first touch. It does nothing: its contract is the law.
pub fn replay_law()
    ensures runs { ReplayLaw }
    ensures records { RecordsReplay }
{}
