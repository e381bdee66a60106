//! The plan by which an end in memory fails.

ghost use Rattle.std.specs.Prelude.{◌≡◌};
ghost use Rattle.bop_ends.specs.Plan.{failure_at, fails_at};

/// After how many bytes of its piece the call is to fail.
pub fn planned_failure(fails: &[(u64, usize)], call: u64) -> Option<usize>
    ensures { result ≡ failure_at fails.now call }
{
    fails.iter().find(|fail| fail.0 == call).map(|fail| fail.1)
}

/// Whether the call is to fail.
pub fn is_planned(fails: &[u64], call: u64) -> bool
    ensures { result ≡ fails_at fails.now call }
{
    fails.contains(&call)
}
