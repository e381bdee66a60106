//! Markers.

ghost use Rattle.std.specs.Prelude.{◌≡◌, option_map};
ghost use Rattle.std.specs.Option.{option_copied};
ghost use Rattle.c_tree.specs.Breach.{Adds};
ghost use Rattle.c_tree.specs.Statements.{named_breaches, count_breaches, marker_breaches};
ghost use Rattle.c_tree.specs.View.{ty_of};
ghost use Rattle.c_types.specs.Env.{scope_of, known};
ghost use Rattle.c_check.specs.private.Marker.{can_be};

use c_rules::{Seen, note};
use c_tree::{Broken, CHANNELS, CType, Count, Least, Marker, Place, REGIONS};
use c_types::{Env, Known};

/// What a name in a marker is for: the bytes that are sent, or how many.
#[derive(Clone, Copy, Debug)]
pub(crate) enum Role {
    Source,
    Length,
}

impl Role {
    /// Whether a variable of a type can have it.
    fn can_be(self, ty: &CType) -> bool
        ensures { result ≡ can_be self (ty_of ty.now) }
    {
        match self {
            Role::Source => Seen::of(ty).decay().is_pointer(),
            Role::Length => matches!(ty, CType::Int),
        }
    }
}

/// Notes what a name in a marker breaks, by what it stands for.
fn check_named(role: Role, found: Option<&Known>, name_at: Place, at: Place, least: &mut Least)
    ensures { Adds least.old least.new
        (named_breaches (can_be role) (option_map known (option_copied found.entry)) name_at at) }
{
    match found {
        None => note(least, false, Broken::Unknown, name_at),
        Some(Known::Object(ty)) => note(least, role.can_be(ty), Broken::Marker, at),
        Some(Known::Function { .. }) => note(least, false, Broken::Marker, at),
    }
}

fn check_count(count: &Count, at: Place, env: &Env, least: &mut Least)
    ensures { Adds least.old least.new (count_breaches (scope_of env.now) count.now at) }
{
    match count {
        Count::Number(_) => {}
        Count::Name(name, name_at) => {
            check_named(Role::Length, env.find(name), *name_at, at, least);
        }
    }
}

/// Notes what a marker breaks by itself.
#[tactic(auto, using(c_tree::proofs::LeastBreach::append_rules))]
pub(crate) fn check_marker(marker: &Marker, at: Place, env: &Env, least: &mut Least)
    ensures { Adds least.old least.new (marker_breaches (scope_of env.now) marker.now at) }
{
    match marker {
        Marker::Begin(number) => note(least, *number < REGIONS, Broken::Marker, at),
        Marker::End(number) => note(least, *number < REGIONS, Broken::Marker, at),
        Marker::Wait(channel) => note(least, *channel < CHANNELS, Broken::Marker, at),
        Marker::Post(channel, name, name_at, count) => {
            note(least, *channel < CHANNELS, Broken::Marker, at);
            check_named(Role::Source, env.find(name), *name_at, at, least);
            check_count(count, at, env, least);
        }
    }
}
