//! Calls: what they name, and whether their arguments fit.

ghost use Rattle.std.specs.Prelude.{◌≡◌, ◌&&◌, false, not, map, None, Some, if◌then◌else◌};
ghost use Rattle.std.specs.Option.{option_map, option_copied};
ghost use Rattle.c_tree.specs.Ty as the_ty;
ghost use Rattle.c_tree.specs.View.{ty_of};
ghost use Rattle.c_tree.specs.Breach.{Adds};
ghost use Rattle.c_tree.specs.Rules.{where_right};
ghost use Rattle.c_tree.specs.Typing.{called, result_of, parameters_of, is_none_left, others, is_taken, takes_first};
ghost use Rattle.c_tree.specs.Breaches.{may_take, may_take_first, passing_breaches, call_breaches};
ghost use Rattle.c_types.specs.Env.{scope_of, known};
ghost use Rattle.c_rules.specs.Seen.{seen, seen_some};
ghost use Rattle.c_types.specs.Call.{target, parameters};

use crate::env::{Env, Known};
use c_rules::{Base, Seen, is_taken, is_void, may_take, note};
use c_tree::{Broken, CType, Callee, Least, Place, Use};

/// What a call names.
#[derive(Clone, Copy)]
pub enum Target<'a> {
    Found(Option<&'a Known>),
    Getchar,
    Putchar,
}

/// The types of a call's parameters.
#[derive(Clone, Copy)]
pub enum Parameters<'a> {
    Listed(&'a [CType]),
    OneInt,
}

impl<'a> Target<'a> {
    /// What a call names.
    pub fn of(callee: &Callee, env: &'a Env) -> Target<'a>
        ensures { target result ≡ called (scope_of env.now) callee.now }
    {
        match callee {
            Callee::Name(name) => Target::Found(env.find(name)),
            Callee::Getchar => Target::Getchar,
            Callee::Putchar => Target::Putchar,
        }
    }

    /// What it takes.
    pub fn parameters(self) -> Parameters<'a>
        ensures { parameters result ≡ parameters_of (target self.entry) }
    {
        match self {
            Target::Found(Some(Known::Function { params, .. })) => {
                Parameters::Listed(params.as_slice())
            }
            Target::Found(_) => Parameters::Listed(&[]),
            Target::Getchar => Parameters::Listed(&[]),
            Target::Putchar => Parameters::OneInt,
        }
    }
}

/// What the arguments of a call are to its parameters.
#[derive(Clone, Copy, Debug)]
pub struct Passed {
    /// There is one for each parameter.
    pub counts: bool,
    /// None is refused.
    pub fits: bool,
    /// Each has a type that its parameter takes.
    pub typed: bool,
}

impl<'a> Parameters<'a> {
    /// Those behind the first.
    pub fn others(self) -> Parameters<'a>
        ensures { parameters result ≡ others (parameters self.entry) }
    {
        match self {
            Parameters::OneInt => Parameters::Listed(&[]),
            Parameters::Listed(types) => Parameters::Listed(others(types)),
        }
    }

    fn is_empty(self) -> bool
        ensures { result ≡ is_none_left (parameters self.entry) }
    {
        match self {
            Parameters::OneInt => false,
            Parameters::Listed(types) => is_none_left(types),
        }
    }

    /// One more argument.
    pub fn pass(self, passed: Passed, nought: bool, ty: Option<Seen<'a>>) -> Passed
        ensures counts { result.counts
            ≡ (passed.counts && not (is_none_left (parameters self.entry))) }
        ensures fits { result.fits
            ≡ (passed.fits && may_take_first (parameters self.entry) nought (seen_some ty.entry)) }
        ensures typed { result.typed
            ≡ (passed.typed && takes_first (parameters self.entry) nought (seen_some ty.entry)) }
    {
        match self {
            Parameters::OneInt => pass_to(passed, Seen::Is(Base::Int), nought, ty),
            Parameters::Listed(types) => pass_listed(passed, types, nought, ty),
        }
    }

    /// No more arguments.
    pub fn end(self, passed: Passed) -> Passed
        ensures counts { result.counts ≡ (passed.counts && is_none_left (parameters self.entry)) }
        ensures fits { result.fits ≡ passed.fits }
        ensures typed { result.typed ≡ (passed.typed && is_none_left (parameters self.entry)) }
    {
        let empty = self.is_empty();
        Passed {
            counts: passed.counts && empty,
            fits: passed.fits,
            typed: passed.typed && empty,
        }
    }
}

fn others(types: &[CType]) -> &[CType]
    ensures { map ty_of result.now ≡ others (map ty_of types.now) }
{
    match types {
        [] => types,
        [_, more @ ..] => more,
    }
}

fn is_none_left(types: &[CType]) -> bool
    ensures { result ≡ is_none_left (map ty_of types.now) }
{
    match types {
        [] => true,
        [_, ..] => false,
    }
}

fn pass_to<'a>(passed: Passed, to: Seen<'a>, nought: bool, ty: Option<Seen<'a>>) -> Passed
    ensures counts { result.counts ≡ passed.counts }
    ensures fits { result.fits
        ≡ (passed.fits && may_take (seen to.entry) nought (seen_some ty.entry)) }
    ensures typed { result.typed
        ≡ (passed.typed && is_taken (seen to.entry) nought (seen_some ty.entry)) }
{
    let fits = may_take(to, nought, ty);
    let typed = is_taken(to, nought, ty);
    Passed {
        counts: passed.counts,
        fits: passed.fits && fits,
        typed: passed.typed && typed,
    }
}

fn pass_listed<'a>(passed: Passed, types: &'a [CType], nought: bool, ty: Option<Seen<'a>>) -> Passed
    ensures counts { result.counts ≡ (passed.counts && not (is_none_left (map ty_of types.now))) }
    ensures fits { result.fits
        ≡ (passed.fits && may_take_first (map ty_of types.now) nought (seen_some ty.entry)) }
    ensures typed { result.typed
        ≡ (passed.typed && takes_first (map ty_of types.now) nought (seen_some ty.entry)) }
{
    match types {
        [] => Passed {
            counts: false,
            fits: passed.fits,
            typed: false,
        },
        [to, ..] => pass_to(passed, Seen::of(to), nought, ty),
    }
}

/// Notes what a call of a function breaks.
fn note_call(is_void_used: bool, passed: Passed, at: Place, least: &mut Least)
    ensures { Adds least.old least.new
        (passing_breaches is_void_used passed.counts passed.fits at) }
{
    if is_void_used {
        note(least, false, Broken::Mismatch, at);
    } else if passed.counts {
        note(least, passed.fits, Broken::Mismatch, at);
    } else {
        note(least, false, Broken::Arguments, at);
    }
}

fn call_known<'a>(
    found: Option<&'a Known>,
    used: Use,
    passed: Passed,
    at: Place,
    least: &mut Least,
) -> Option<Seen<'a>>
    ensures ty { seen_some result
        ≡ where_right passed.typed (result_of (option_map known (option_copied found.entry))) }
    ensures least { Adds least.old least.new
        (call_breaches used (option_map known (option_copied found.entry)) passed.counts
        passed.fits at) }
{
    match found {
        None => {
            note(least, false, Broken::Unknown, at);
            None
        }
        Some(Known::Object(_)) => {
            note(least, false, Broken::Mismatch, at);
            None
        }
        Some(
            Known::Function {
                gives,
                is_defined,
                ..
            },
        ) => {
            let void = is_void(gives);
            note(least, *is_defined, Broken::Unknown, at);
            note_call(void && matches!(used, Use::Value), passed, at, least);
            if passed.typed && !void {
                Some(Seen::of(gives))
            } else {
                None
            }
        }
    }
}

fn call_built_in<'a>(passed: Passed, at: Place, least: &mut Least) -> Option<Seen<'a>>
    ensures ty { seen_some result ≡ where_right passed.typed (Some the_ty.Int) }
    ensures least { Adds least.old least.new (passing_breaches false passed.counts passed.fits at) }
{
    note_call(false, passed, at, least);
    if passed.typed {
        Some(Seen::Is(Base::Int))
    } else {
        None
    }
}

/// The type of a call's value, where it has one.
pub fn type_call<'a>(
    name: Target<'a>,
    used: Use,
    passed: Passed,
    at: Place,
    least: &mut Least,
) -> Option<Seen<'a>>
    ensures ty { seen_some result ≡ where_right passed.typed (result_of (target name.entry)) }
    ensures least { Adds least.old least.new
        (call_breaches used (target name.entry) passed.counts passed.fits at) }
{
    match name {
        Target::Found(found) => call_known(found, used, passed, at, least),
        Target::Getchar => call_built_in(passed, at, least),
        Target::Putchar => call_built_in(passed, at, least),
    }
}
