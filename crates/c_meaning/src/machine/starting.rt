//! The memory that a program starts with.

ghost use Rattle.std.specs.Prelude.{◌≡◌, ◌++◌, ◌∷◌, List, map, IfOk, OnOk};
ghost use Rattle.c_tree.specs.Var.{Var as PureVar};
ghost use Rattle.c_tree.specs.Item.{Item as PureItem};
ghost use Rattle.c_tree.specs.View.{var_of, expr_of, exprs_of, item_of, items_of, ty_of};
ghost use Rattle.c_layout.specs.Laid.{plan};
ghost use Rattle.c_layout.specs.LayoutAnswers.{plan_of};
ghost use Rattle.c_semantics.specs.Meaning.{item_bytes, items_bytes, given_bytes, filled, first_bytes, global_declarators, start};
ghost use Rattle.c_semantics.specs.Memory.{digits};
ghost use Rattle.c_meaning.specs.private.Started.{started};

use c_layout::Layout;
use c_resolve::{global_addresses, size};
use c_rules::convert;
use c_semantics::{Memory, Object};
use c_tree::{CType, Expr, Init, Item, OutOfMemory, Tree, Var};
use c_types::{array_of, pointer_to, value_of};
use std::alloc::Global;

/// Adds the lowest bytes of a number, the lowest first.
fn push_digits(value: u32, count: u64, out: &mut Vec<u8>) -> Result<(), OutOfMemory>
    ensures { OnOk result (out.new.items ≡ out.old.items ++ digits count value) }
{
    let mut rest = value;
    for _byte in 0..count {
        out.push((rest % 256) as u8)?;
        rest /= 256;
    }
    Ok(())
}

/// Adds the bytes of a constant of a type. One without a value counts as 0.
fn push_item(ty: &CType, constant: &Expr, out: &mut Vec<u8>) -> Result<(), OutOfMemory>
    ensures { OnOk result (out.new.items
        ≡ out.old.items ++ item_bytes (ty_of ty.now) (expr_of constant.now)) }
{
    let value = value_of(constant).unwrap_or(0);
    push_digits(convert(value, ty), size(ty)?, out)
}

/// Adds the bytes of constants of a type.
fn push_items(ty: &CType, constants: &[Expr], out: &mut Vec<u8>) -> Result<(), OutOfMemory>
    ensures { OnOk result (out.new.items
        ≡ out.old.items ++ items_bytes (ty_of ty.now) (exprs_of constants.now)) }
{
    for constant in constants {
        push_item(ty, constant, out)?;
    }
    Ok(())
}

/// Adds the bytes that an initialiser gives.
fn push_given(ty: &CType, v: &Var, out: &mut Vec<u8>) -> Result<(), OutOfMemory>
    ensures { OnOk result (out.new.items
        ≡ out.old.items ++ given_bytes (ty_of ty.now) (var_of v.now).init) }
{
    match &v.init {
        None => Ok(()),
        Some(Init::One(constant)) => push_item(ty, constant, out),
        Some(Init::Many(constants)) => push_items(ty, constants, out),
    }
}

/// Makes bytes as many as an object has. What isn't given is 0.
fn fill(bytes: &mut Vec<u8>, count: u64) -> Result<(), OutOfMemory>
    ensures { OnOk result (bytes.new.items ≡ filled count bytes.old.items) }
{
    bytes.resize(count as usize, 0)?;
    Ok(())
}

/// The bytes that a global holds first.
pub fn first_bytes(alloc: Global, v: &Var) -> Result<Vec<u8>, OutOfMemory>
    ensures { IfOk result (λ bytes. bytes.items ≡ first_bytes (var_of v.now)) }
{
    let mut bytes = Vec::new(alloc);
    let element = pointer_to(alloc, &v.base, v.stars)?;
    push_given(&element, v, &mut bytes)?;
    let ty = array_of(alloc, element, &v.sizes)?;
    fill(&mut bytes, size(&ty)?)?;
    Ok(bytes)
}

/// Starts a global at the first of some addresses, and gives those behind it.
fn start_global<'a>(
    alloc: Global,
    v: &Var,
    addresses: &'a [u32],
    memory: &mut Memory,
) -> Result<&'a [u32], OutOfMemory>
    ensures { IfOk result (λ rest. (ds : List PureVar)
        → started rest.now ds memory.new ≡ started addresses.now (var_of v.now ∷ ds) memory.old) }
{
    let Some((address, rest)) = addresses.split_first() else {
        return Ok(addresses);
    };
    let at = u64::from(*address);
    let bytes = first_bytes(alloc, v)?;
    memory.open(Object {
        address: at,
        size: bytes.len() as u64,
    })?;
    memory.fill(at, &bytes);
    Ok(rest)
}

/// Starts globals at the first of some addresses, and gives those behind them.
fn start_globals<'a>(
    alloc: Global,
    vars: &[Var],
    addresses: &'a [u32],
    memory: &mut Memory,
) -> Result<&'a [u32], OutOfMemory>
    ensures { IfOk result (λ rest. (ds : List PureVar)
        → started rest.now ds memory.new
        ≡ started addresses.now (map var_of vars.now ++ ds) memory.old) }
{
    let mut rest = addresses;
    for v in vars {
        rest = start_global(alloc, v, rest, memory)?;
    }
    Ok(rest)
}

/// Starts the globals of an item, and gives the addresses behind them.
fn start_item<'a>(
    alloc: Global,
    item: &Item,
    addresses: &'a [u32],
    memory: &mut Memory,
) -> Result<&'a [u32], OutOfMemory>
    ensures { IfOk result (λ rest. (ps : List PureItem)
        → started rest.now (global_declarators ps) memory.new
        ≡ started addresses.now (global_declarators (item_of item.now ∷ ps)) memory.old) }
{
    match item {
        Item::Vars(_, vars) => start_globals(alloc, vars, addresses, memory),
        Item::Fun(_) => Ok(addresses),
    }
}

/// The memory that a program starts with: its globals live, and hold their first values.
pub(crate) fn start_memory(
    alloc: Global,
    tree: &Tree,
    layout: &Layout,
) -> Result<Memory, OutOfMemory>
    requires { plan_of layout.now ≡ plan (items_of tree.now) }
    ensures { IfOk result (λ memory. memory
        ≡ record {
          bytes = (start (items_of tree.now)).bytes;
          live = (start (items_of tree.now)).live;
        }) }
{
    let addresses = global_addresses(alloc, layout)?;
    let mut memory = Memory::new(alloc)?;
    let mut rest = addresses.as_slice();
    for item in &tree.items {
        rest = start_item(alloc, item, rest, &mut memory)?;
    }
    Ok(memory)
}
