//! What two names stand for as blocks are opened and closed.

ghost use Rattle.std.specs.Prelude.{◌≤◌, length, IfOk};
ghost use Rattle.c_types.specs.Env.{scope_of};

use crate::tests::read::{ctype, name, row};
use c_types::{Env, Known};
use std::alloc::Global;
use std::test::Fail;

/// Opens a block, closes one or declares an object, and gives the number of blocks round the innermost.
fn take_step(alloc: Global, step: &str, env: &mut Env, depth: usize) -> Result<usize, Fail>
    requires { depth ≤ length (scope_of env.old).outer }
    ensures { IfOk result (λ after. after ≤ length (scope_of env.new).outer) }
{
    if step == "enter" {
        env.enter()?;
        return Ok(depth.saturating_add(1));
    }
    if step == "leave" && depth > 0 {
        env.leave();
        return Ok(depth - 1);
    }
    let (object, ty) = step.split_once(" ").ok_or("an object has a type")?;
    env.declare(&name(alloc, object)?, ctype(alloc, ty)?)?;
    Ok(depth)
}

/// Whether a name is an object of a type, or none of that name is in scope.
fn stands_for(alloc: Global, object: &str, want: &str, env: &Env) -> Result<bool, Fail> {
    match env.find(&name(alloc, object)?) {
        None => Ok(want == "none"),
        Some(Known::Object(ty)) => Ok(*ty == ctype(alloc, want)?),
        Some(Known::Function { .. }) => Ok(false),
    }
}

const BLOCKS: &str = "a char : char none
enter : char none
b int : char int
a unsigned : unsigned int
a int : int int
enter : int int
a char : char int
leave : int int
enter : int int
b unsigned : int unsigned
leave : int int
leave : char none
enter : char none
a unsigned : unsigned none
leave : char none
b char : char char";

#[test]
fn a_block_hides_names_until_it_is_left(rt: HostRuntime) -> Result<(), Fail> {
    let mut env = Env::new(rt.alloc())?;
    let mut depth = 0;
    for line in BLOCKS.lines() {
        let (step, found) = row(line)?;
        depth = take_step(rt.alloc(), step, &mut env, depth)?;
        let (a, b) = found.split_once(" ").ok_or("two names are looked up")?;
        assert!(rt; stands_for(rt.alloc(), "a", a, &env)?, "a at {step}");
        assert!(rt; stands_for(rt.alloc(), "b", b, &env)?, "b at {step}");
    }
    Ok(())
}
