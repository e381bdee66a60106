//! What a check has found so far, and in which scope.

ghost use Rattle.std.specs.Prelude.{◌≡◌, IfOk};
ghost use Rattle.c_tree.specs.Breach.{nothing_found};
ghost use Rattle.c_tree.specs.Scope.{empty_scope};
ghost use Rattle.c_check.specs.private.Checking.{scope_in};

use c_rules::none_found;
use c_tree::{Least, OutOfMemory, Ranking};
use c_types::Env;
use std::alloc::Global;

/// The names in scope, and the least breach so far.
#[derive(Drop)]
pub(crate) struct Checker {
    pub(crate) alloc: Global,
    pub(crate) env: Env,
    pub(crate) least: Least,
}

impl Checker {
    /// No name is in scope, and nothing is found.
    pub(crate) fn new(alloc: Global) -> Result<Checker, OutOfMemory>
        ensures scope { IfOk result (λ checker. scope_in checker ≡ empty_scope) }
        ensures least { IfOk result (λ checker. checker.least ≡ nothing_found Ranking.ForChecks) }
    {
        Ok(Checker {
            alloc,
            env: Env::new(alloc)?,
            least: none_found(Ranking::ForChecks),
        })
    }
}
