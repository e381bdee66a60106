//! Functions.

ghost use Rattle.std.specs.Prelude.{◌≡◌, ◌++◌, bytes_eq, map, IfOk, OnOk};
ghost use Rattle.c_tree.specs.Declarators.{parameter_shape};
ghost use Rattle.c_tree.specs.View.{fun_of, param_of, stmts_of};
ghost use Rattle.c_layout.specs.Frames.{frame_of};
ghost use Rattle.c_layout.specs.LayoutAnswers.{planned_of};
ghost use Rattle.c_resolve.specs.private.Acted.{AreNames, IsRoutineOf, parameters_at};
ghost use Rattle.c_resolve.specs.DeclaredNames.{IsKept, IsSame};
ghost use Rattle.c_semantics.specs.Meaning.{main_name, parameter_locals, with_parameter, with_parameters};

use crate::kinds::{held_of, size};
use crate::named::Named;
use crate::names::Names;
use crate::places::past;
use crate::routine::{Parameter, Routine};
use crate::statement::resolve_body;
use c_layout::Frame;
use c_semantics::{Home, Local};
use c_tree::{Fun, Name, OutOfMemory, Param, Stmt};
use c_types::{parameter_type, pointer_to};
use std::alloc::Global;

/// The name of the function that a program starts with.
pub(super) const MAIN: &[u8] = b"main";

/// Whether a name is `main`.
pub fn is_main(name: &Name) -> bool
    ensures { result ≡ bytes_eq name.now main_name }
{
    name.get() == MAIN
}

/// Declares a parameter, where it has a name.
fn declare_param(p: &Param, places: &[u32], names: &mut Names) -> Result<(), OutOfMemory>
    ensures names { OnOk result
        (AreNames names.old names.new
        (with_parameter places.now (parameter_shape (param_of p.now)) p.now.name)) }
    ensures kept { OnOk result (IsKept names.old names.new) }
{
    let Some(place) = places.first() else {
        return Ok(());
    };
    match &p.name {
        None => Ok(()),
        Some(name) => {
            let ty = parameter_type(names.alloc, p)?;
            names.declare(name, Named::Variable(ty, Home::InFrame(*place)))
        }
    }
}

/// Declares parameters.
fn declare_params(params: &[Param], places: &[u32], names: &mut Names) -> Result<(), OutOfMemory>
    ensures names { OnOk result
        (AreNames names.old names.new (with_parameters places.now (map param_of params.now))) }
    ensures kept { OnOk result (IsKept names.old names.new) }
{
    let mut rest = places;
    for p in params {
        declare_param(p, rest, names)?;
        rest = past(rest, 1);
    }
    Ok(())
}

/// What arguments are written into, and the parameters' objects.
fn push_params(
    alloc: Global,
    params: &[Param],
    places: &[u32],
    out: &mut Vec<Parameter>,
    locals: &mut Vec<Local>,
) -> Result<(), OutOfMemory>
    ensures parameters { OnOk result
        (out.new.items ≡ out.old.items ++ parameters_at places.now (map param_of params.now)) }
    ensures locals { OnOk result
        (locals.new.items ≡ locals.old.items
        ++ parameter_locals places.now (map param_of params.now)) }
{
    let mut rest = places;
    for p in params {
        let Some(place) = rest.first() else {
            return Ok(());
        };
        let ty = parameter_type(alloc, p)?;
        out.push(Parameter {
            offset: *place,
            held: held_of(&ty),
            place: p.place,
        })?;
        locals.push(Local {
            offset: *place,
            size: size(&ty)?,
        })?;
        rest = past(rest, 1);
    }
    Ok(())
}

/// A function that the text defines, in its frame. The names are those of the text.
pub(super) fn resolve_fun(
    f: &Fun,
    body: &[Stmt],
    frame: &Frame,
    names: &mut Names,
) -> Result<Routine, OutOfMemory>
    requires { planned_of frame.now
        ≡ frame_of (map param_of f.now.params.items) (stmts_of body.now) }
    ensures same { OnOk result (IsSame names.old names.new) }
    ensures means { IfOk result
        (λ routine. IsRoutineOf names.old routine (fun_of f.now) (stmts_of body.now)) }
{
    let places = frame.places.as_slice();
    let mut parameters = Vec::new(names.alloc);
    let mut locals = Vec::new(names.alloc);
    push_params(names.alloc, &f.params, places, &mut parameters, &mut locals)?;
    names.enter()?;
    declare_params(&f.params, places, names)?;
    let gives = pointer_to(names.alloc, &f.base, f.stars)?;
    let own = past(places, f.params.len());
    let block = resolve_body(body, own, &gives, names)?;
    names.leave();
    locals.extend_from_slice(&block.locals)?;
    Ok(Routine {
        frame: frame.size,
        parameters,
        locals,
        body: block.actions,
        is_main: is_main(&f.name),
    })
}
