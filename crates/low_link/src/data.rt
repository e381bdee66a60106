//! The bytes of the globals, with which a program starts.

ghost use Rattle.std.specs.Prelude.{◌≡◌, ◌-◌, ◌++◌, ◌∷◌, false, List, map, slice_set, IfOk};
ghost use Rattle.bop_bits.specs.declared.map.TheConstants.{DATA_FROM};
ghost use Rattle.c_tree.specs.Item.{Item as PureItem};
ghost use Rattle.c_tree.specs.Var.{Var as PureVar};
ghost use Rattle.c_tree.specs.View.{item_of, items_of, var_of};
ghost use Rattle.c_layout.specs.Laid.{is_data_too_large, plan};
ghost use Rattle.c_layout.specs.LayoutAnswers.{plan_of};
ghost use Rattle.c_semantics.specs.Meaning.{global_declarators};
ghost use Rattle.low_stmt.specs.TextCode.{data_of};
ghost use Rattle.low_link.specs.private.DataBytes.{with_data, with_first_data};

use bop_bits::{DATA_FROM, PAGE_BYTES};
use c_layout::Layout;
use c_meaning::first_bytes;
use c_resolve::global_addresses;
use c_tree::{Item, OutOfMemory, Tree, Var};
use std::alloc::Global;

/// Puts a byte at an address. One behind the data is left out.
fn put(out: &mut [u8], at: u64, byte: u8)
    ensures { out.new ≡ slice_set out.old (at - DATA_FROM) byte }
{
    let index = at.saturating_sub(u64::from(DATA_FROM)) as usize;
    if index < out.len() {
        out[index] = byte;
    }
}

/// Puts bytes one behind the other, from an address on.
fn put_bytes(out: &mut [u8], at: u32, bytes: &[u8])
    ensures { out.new ≡ with_data at bytes.now out.old }
{
    let mut next = u64::from(at);
    for byte in bytes {
        put(out, next, *byte);
        next += 1;
    }
}

/// Puts the first bytes of a global at the first of some addresses, and gives those behind it.
fn put_global<'a>(
    alloc: Global,
    v: &Var,
    addresses: &'a [u32],
    out: &mut [u8],
) -> Result<&'a [u32], OutOfMemory>
    ensures { IfOk result (λ rest. (ds : List PureVar)
        → with_first_data rest.now ds out.new
        ≡ with_first_data addresses.now (var_of v.now ∷ ds) out.old) }
{
    let Some((address, rest)) = addresses.split_first() else {
        return Ok(addresses);
    };
    let bytes = first_bytes(alloc, v)?;
    put_bytes(out, *address, &bytes);
    Ok(rest)
}

/// Puts the first bytes of globals at the first of some addresses, and gives those behind them.
fn put_globals<'a>(
    alloc: Global,
    vars: &[Var],
    addresses: &'a [u32],
    out: &mut [u8],
) -> Result<&'a [u32], OutOfMemory>
    ensures { IfOk result (λ rest. (ds : List PureVar)
        → with_first_data rest.now ds out.new
        ≡ with_first_data addresses.now (map var_of vars.now ++ ds) out.old) }
{
    let mut rest = addresses;
    for v in vars {
        rest = put_global(alloc, v, rest, out)?;
    }
    Ok(rest)
}

/// Puts the first bytes of the globals of an item, and gives the addresses behind them.
fn put_item<'a>(
    alloc: Global,
    item: &Item,
    addresses: &'a [u32],
    out: &mut [u8],
) -> Result<&'a [u32], OutOfMemory>
    ensures { IfOk result (λ rest. (ps : List PureItem)
        → with_first_data rest.now (global_declarators ps) out.new
        ≡ with_first_data addresses.now (global_declarators (item_of item.now ∷ ps)) out.old) }
{
    match item {
        Item::Vars(_, vars) => put_globals(alloc, vars, addresses, out),
        Item::Fun(_) => Ok(addresses),
    }
}

/// The bytes of the globals, from the first address of the data to the end of their last page.
pub(crate) fn data_of(alloc: Global, tree: &Tree, layout: &Layout) -> Result<Vec<u8>, OutOfMemory>
    requires planned { plan_of layout.now ≡ plan (items_of tree.now) }
    requires fits { is_data_too_large (items_of tree.now) ≡ false }
    ensures { IfOk result (λ bytes. bytes.items ≡ data_of (items_of tree.now)) }
{
    let addresses = global_addresses(alloc, layout)?;
    let length = layout.classes().private_to * PAGE_BYTES;
    let mut bytes = vec![in alloc; 0; length as usize]?;
    let mut rest = addresses.as_slice();
    for item in &tree.items {
        rest = put_item(alloc, item, rest, &mut bytes)?;
    }
    Ok(bytes)
}
