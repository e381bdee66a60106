//! Primary expressions (C11 6.5.1): names and constants.

ghost use Rattle.std.specs.Prelude.{◌≡◌, ◌<◌, List, true, Some, IfOk, IfErr, OnOk};
ghost use Rattle.low_labels.specs.declared.fault.AsmFault.TheVariants.{CodeTooLong};
ghost use Rattle.low_labels.specs.Emission.{emit_all, IsTooLong};
ghost use Rattle.low_labels.specs.Operation.{width_of};
ghost use Rattle.c_tree.specs.Expr as expr;
ghost use Rattle.c_rules.specs.Seen.{seen_some, is_flat};
ghost use Rattle.c_semantics.specs.Names.{Definition, home_of};
ghost use Rattle.c_resolve.specs.DeclaredNames.{IsTypeOf};
ghost use Rattle.low_expr.specs.declared.piece.TheConstants.{SLOTS};
ghost use Rattle.low_expr.specs.CodePieces.{keep, constant};
ghost use Rattle.low_expr.specs.LabelledNames.{scope_in};
ghost use Rattle.low_expr.specs.Registers.{t0};
ghost use Rattle.low_expr.specs.private.Wanting.{IsLoweredAs, IsRefusedAs};

use crate::finish::{add_constant, add_home, add_variable};
use crate::names::Names;
use crate::piece::SLOTS;
use crate::wanted::Wanted;
use c_resolve::{Named, held_by};
use c_rules::Seen;
use c_semantics::Home;
use c_tree::{Name, Place};
use low_labels::{Asm, AsmFault};

/// A variable's type, and where it is.
#[derive(Clone, Copy)]
struct Found<'a> {
    ty: Option<Seen<'a>>,
    home: Home,
}

/// What a name stands for.
fn find<'a>(name: &Name, names: &'a Names, at: Place) -> Found<'a>
    ensures ty { IsTypeOf names.now.known result.ty (expr.Name name.now at) }
    ensures flat { is_flat result.ty ≡ true }
    ensures home { (definitions : List Definition)
        → result.home ≡ home_of (scope_in definitions names.now name.now) }
{
    match names.known.find(name) {
        Some(Named::Variable(ty, home)) => Found {
            ty: Some(Seen::of(ty)),
            home: *home,
        },
        _ => Found {
            ty: None,
            home: Home::Nowhere,
        },
    }
}

/// A constant.
pub(crate) fn lower_constant<'a>(
    asm: &mut Asm,
    value: u32,
    ty: Seen<'a>,
    slot: u32,
) -> Result<Option<Seen<'a>>, AsmFault>
    requires { slot < SLOTS }
    ensures ty { IfOk result (λ own. seen_some own ≡ seen_some (Some ty.entry)) }
    ensures added { OnOk result (asm.new ≡ emit_all (keep (constant t0 value) t0 slot) asm.old) }
    ensures too_long { IfErr result (λ fault. fault ≡ CodeTooLong
        → IsTooLong (width_of (keep (constant t0 value) t0 slot)) asm.old) }
{
    add_constant(asm, value, slot)?;
    Ok(Some(ty))
}

/// A name.
pub(crate) fn lower_name<'a>(
    asm: &mut Asm,
    name: &Name,
    wanted: Wanted,
    names: &'a Names,
    slot: u32,
    at: Place,
) -> Result<Option<Seen<'a>>, AsmFault>
    requires { slot < SLOTS }
    ensures ty { IfOk result (λ ty. IsTypeOf names.now.known ty (expr.Name name.now at)) }
    ensures flat { IfOk result (λ ty. is_flat ty ≡ true) }
    ensures lowered { OnOk result
        (IsLoweredAs names.now wanted (expr.Name name.now at) slot asm.old asm.new) }
    ensures too_long { IfErr result (λ fault. fault ≡ CodeTooLong
        → IsRefusedAs names.now wanted (expr.Name name.now at) slot asm.old) }
{
    let found = find(name, names, at);
    match wanted {
        Wanted::Value => add_variable(asm, found.home, held_by(found.ty), slot)?,
        Wanted::Place => add_home(asm, found.home, slot)?,
    }
    Ok(found.ty)
}
