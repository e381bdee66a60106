//! Where globals stand.

ghost use Rattle.std.specs.Prelude.{◌≡◌, ◌≤◌, ◌++◌, List, [], ◌∷◌, map, IfOk};
ghost use Rattle.bop_bits.specs.declared.map.TheConstants.{PAGE_BYTES};
ghost use Rattle.c_tree.specs.Declarators.{declared_shape};
ghost use Rattle.c_tree.specs.View.{var_of, item_of};
ghost use Rattle.c_layout.specs.private.Capped.{near, cursors_of};
ghost use Rattle.c_layout.specs.Sizes.{rounded};
ghost use Rattle.c_layout.specs.Globals.{Global as Object, global_of, globals, is_kept, kept, placed, behind, end_of, checked_from, private_from, private_to, page_of, addresses_from, addresses};

use crate::limits::FAR;
use crate::next::Next;
use crate::sizes::{alignment, round_up, size};
use bop_bits::{Classes, DATA_FROM, PAGE_BYTES};
use c_tree::{Item, Keep, OutOfMemory, Var};
use std::alloc::Global;

/// Where an object begins, and where it ends.
#[derive(Clone, Copy)]
struct Span {
    from: u32,
    to: u32,
}

/// A variable's place behind an address.
#[tactic(auto, using(crate::proofs::Nearness::spans))]
fn place(v: &Var, at: u32) -> Span
    requires { at ≤ FAR }
    ensures from { result.from ≡ near (placed at (declared_shape (var_of v.now))) }
    ensures to { result.to ≡ near (behind at (declared_shape (var_of v.now))) }
{
    let from = round_up(alignment(v), at);
    Span {
        from: from.min(FAR),
        to: (from + size(v)).min(FAR),
    }
}

/// Where variables end that follow each other from an address on.
fn vars_end(vars: &[Var], from: u32) -> u32
    requires { from ≤ FAR }
    ensures { result ≡ near (end_of from (map declared_shape (map var_of vars.now))) }
{
    let mut at = from;
    for v in vars {
        at = place(v, at).to;
    }
    at
}

fn is_kept(keep: Keep, by: Keep) -> bool
    ensures { result ≡ is_kept keep by }
{
    match keep {
        Keep::Shared => matches!(by, Keep::Shared),
        Keep::Checked => matches!(by, Keep::Checked),
        Keep::Private => matches!(by, Keep::Private),
    }
}

/// Where the globals of an item end that are kept in one way.
#[tactic(auto, using(crate::proofs::Nearness::items))]
fn item_end(item: &Item, keep: Keep, from: u32) -> u32
    requires { from ≤ FAR }
    ensures limit { result ≤ FAR }
    ensures end { (rest : List Object)
        → near (end_of result (kept keep rest))
        ≡ near (end_of from (kept keep (globals (item_of item.now ∷ []) ++ rest))) }
{
    match item {
        Item::Vars(by, vars) => {
            if is_kept(keep, *by) {
                vars_end(vars, from)
            } else {
                from
            }
        }
        Item::Fun(_) => from,
    }
}

/// Where the globals end that are kept in one way.
fn section_end(items: &[Item], keep: Keep, from: u32) -> u32
    requires { from ≤ FAR }
    ensures { result ≡ near (end_of from (kept keep (globals (map item_of items.now)))) }
{
    let mut at = from;
    for item in items {
        at = item_end(item, keep, at);
    }
    at
}

fn page_up(at: u32) -> u32
    requires { at ≤ FAR }
    ensures { result ≡ near (rounded PAGE_BYTES at) }
{
    round_up(PAGE_BYTES, at).min(FAR)
}

/// Where the checked and the private section begin, and the first page behind them.
#[derive(Clone, Copy)]
pub(crate) struct Sections {
    checked_from: u32,
    private_from: u32,
    pub(crate) private_to: u32,
}

/// The sections of a text.
pub(crate) fn sections_of(items: &[Item]) -> Sections
    ensures checked_from { result.checked_from
        ≡ near (checked_from (globals (map item_of items.now))) }
    ensures private_from { result.private_from
        ≡ near (private_from (globals (map item_of items.now))) }
    ensures private_to { result.private_to ≡ near (private_to (globals (map item_of items.now))) }
{
    let checked_from = page_up(section_end(items, Keep::Shared, DATA_FROM));
    let private_from = page_up(section_end(items, Keep::Checked, checked_from));
    let private_to = page_up(section_end(items, Keep::Private, private_from));
    Sections {
        checked_from,
        private_from,
        private_to,
    }
}

fn page_of(at: u32) -> u32
    ensures { result ≡ page_of at }
{
    at.saturating_sub(DATA_FROM) / PAGE_BYTES
}

/// The classes of the pages.
pub(crate) fn classes(sections: Sections) -> Classes
    ensures { result ≡ record {
      checked_from = page_of sections.checked_from;
      private_from = page_of sections.private_from;
      private_to =
          page_of sections.private_to;
    } }
{
    Classes {
        checked_from: page_of(sections.checked_from),
        private_from: page_of(sections.private_from),
        private_to: page_of(sections.private_to),
    }
}

fn place_vars(keep: Keep, vars: &[Var], next: Next, out: &mut Vec<u32>) -> Result<Next, OutOfMemory>
    ensures { IfOk result (λ after. (rest : List Object)
        → out.new.items ++ map near (addresses_from (cursors_of after) rest)
        ≡ out.old.items ++ map near
        (addresses_from (cursors_of next)
        (map (global_of keep) (map var_of vars.now) ++ rest))) }
{
    let mut next = next;
    for v in vars {
        let span = place(v, next.get(keep));
        out.push(span.from)?;
        next = next.move_on(keep, span.to);
    }
    Ok(next)
}

#[tactic(auto, using(crate::proofs::Placing::placing))]
fn place_item(item: &Item, next: Next, out: &mut Vec<u32>) -> Result<Next, OutOfMemory>
    ensures { IfOk result (λ after. (rest : List Object)
        → out.new.items ++ map near (addresses_from (cursors_of after) rest)
        ≡ out.old.items ++ map near
        (addresses_from (cursors_of next) (globals (item_of item.now ∷ []) ++ rest))) }
{
    match item {
        Item::Vars(keep, vars) => place_vars(*keep, vars, next, out),
        Item::Fun(_) => Ok(next),
    }
}

fn place_items(alloc: Global, items: &[Item], start: Next) -> Result<Vec<u32>, OutOfMemory>
    ensures { IfOk result (λ out. out.items
        ≡ map near (addresses_from (cursors_of start) (globals (map item_of items.now)))) }
{
    let mut out = Vec::new(alloc);
    let mut next = start;
    for item in items {
        next = place_item(item, next, &mut out)?;
    }
    Ok(out)
}

/// The address of each global, in order of declaration.
pub(crate) fn addresses(
    alloc: Global,
    items: &[Item],
    sections: Sections,
) -> Result<Vec<u32>, OutOfMemory>
    requires checked_from { sections.checked_from
        ≡ near (checked_from (globals (map item_of items.now))) }
    requires private_from { sections.private_from
        ≡ near (private_from (globals (map item_of items.now))) }
    ensures { IfOk result (λ out. out.items
        ≡ map near (addresses (globals (map item_of items.now)))) }
{
    let start = Next {
        shared: DATA_FROM,
        checked: sections.checked_from,
        private: sections.private_from,
    };
    place_items(alloc, items, start)
}
