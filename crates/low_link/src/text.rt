//! The code of a text.

ghost use Rattle.std.specs.Prelude.{◌≡◌, ◌≤◌, ◌∷◌, List, Some, map, replicate, IfErr, IfOk, OnOk};
ghost use Rattle.c_tree.specs.Item.{Item as PureItem};
ghost use Rattle.c_tree.specs.View.{item_of, items_of};
ghost use Rattle.c_layout.specs.Laid.{plan};
ghost use Rattle.c_layout.specs.LayoutAnswers.{plan_of};
ghost use Rattle.c_semantics.specs.Meaning.{main_name};
ghost use Rattle.low_labels.specs.declared.fault.AsmFault.TheVariants.{OutOfMemory};
ghost use Rattle.low_labels.specs.Closed.{place_in};
ghost use Rattle.low_labels.specs.Emission.{nothing};
ghost use Rattle.c_resolve.specs.DeclaredNames.{indexed_at};
ghost use Rattle.low_expr.specs.LabelledNames.{found_label, functions_in};
ghost use Rattle.low_stmt.specs.declared.count.TheConstants.{MOST_PARTS};
ghost use Rattle.low_stmt.specs.CodeBound.{count_text};
ghost use Rattle.low_stmt.specs.DefinedOnce.{AreDefinedOnce};
ghost use Rattle.low_stmt.specs.RegionEnds.{ends_in_text, with_ends};
ghost use Rattle.low_stmt.specs.TextCode.{emitted};
ghost use Rattle.low_stmt.specs.TextReadiness.{IsReadyText};
ghost use Rattle.low_link.specs.private.BegunCode.{IsBegun};

use crate::boot::lower_boot;
use c_layout::Layout;
use c_tree::{Checked, Item, Name};
use low_expr::Names;
use low_labels::{Asm, AsmFault, Label};
use low_stmt::lower_fun;
use std::alloc::Global;

/// The code of a text, and for each number of a region the address of its end, or 0.
#[derive(Drop)]
pub(crate) struct Lowered {
    pub(crate) asm: Asm,
    pub(crate) ends: [u32; 256],
}

/// The label of `main`, which each accepted text defines.
fn main_label(alloc: Global, names: &Names) -> Result<Label, AsmFault>
    requires { found_label names.now.labels.items (indexed_at names.now.numbers.numbers main_name)
        ≡ Some (functions_in names.now main_name) }
    ensures label { IfOk result (λ label. label ≡ functions_in names.now main_name) }
    ensures lack { IfErr result (λ fault. fault ≡ OutOfMemory) }
{
    let name = Name::of(Vec::from_slice(alloc, b"main")?);
    let Some(label) = names.find_label(&name) else {
        unreachable!();
    };
    Ok(label)
}

/// The function of an item, where it defines one, whose frame has this number; and the number of
/// the next frame.
fn lower_item(
    asm: &mut Asm,
    item: &Item,
    layout: &Layout,
    number: u32,
    names: &mut Names,
    ends: &mut [u32; 256],
) -> Result<u32, AsmFault>
    requires { (text : List PureItem) × (left : List PureItem)
        × IsBegun text (plan_of layout.now).frames (item_of item.now ∷ left) number names.old
        asm.old ends.old }
    ensures begun { IfOk result (λ next. (text left : List PureItem)
        → IsBegun text (plan_of layout.now).frames (item_of item.now ∷ left) number names.old
        asm.old ends.old
        → IsBegun text (plan_of layout.now).frames left next names.new asm.new ends.new) }
    ensures lack { IfErr result (λ fault. fault ≡ OutOfMemory) }
{
    match item {
        Item::Vars(_, _) => Ok(number),
        Item::Fun(f) => match &f.body {
            None => Ok(number),
            Some(_) => {
                lower_fun(asm, f, names, layout.frame(number), ends)?;
                Ok(number + 1)
            }
        },
    }
}

/// The names of a text, with a label for each function that it defines, and a call of `main`.
fn begin(
    alloc: Global,
    checked: &Checked,
    layout: &Layout,
    asm: &mut Asm,
) -> Result<Names, AsmFault>
    requires empty { asm.old ≡ nothing }
    requires planned { plan_of layout.now ≡ plan (items_of checked.now.tree) }
    requires ready { IsReadyText (items_of checked.now.tree) }
    requires once { AreDefinedOnce (items_of checked.now.tree) }
    requires few { count_text (items_of checked.now.tree) ≤ MOST_PARTS }
    ensures begun { IfOk result (λ names. IsBegun (items_of checked.now.tree)
        (plan_of layout.now).frames (items_of checked.now.tree) 0 names asm.new
        (replicate 256 0)) }
    ensures lack { IfErr result (λ fault. fault ≡ OutOfMemory) }
{
    let names = Names::new(alloc, checked, layout, asm)?;
    let main = main_label(alloc, &names)?;
    lower_boot(asm, main)?;
    Ok(names)
}

/// The functions of a text, in their order, behind what its code begins with.
fn lower_items(
    asm: &mut Asm,
    items: &[Item],
    layout: &Layout,
    names: &mut Names,
    ends: &mut [u32; 256],
) -> Result<(), AsmFault>
    requires { (text : List PureItem)
        × IsBegun text (plan_of layout.now).frames (map item_of items.now) 0 names.old
        asm.old ends.old }
    ensures code { OnOk result ((text : List PureItem)
        → IsBegun text (plan_of layout.now).frames (map item_of items.now) 0 names.old
        asm.old ends.old
        → asm.new ≡ emitted text) }
    ensures ends { OnOk result ((text : List PureItem)
        → IsBegun text (plan_of layout.now).frames (map item_of items.now) 0 names.old
        asm.old ends.old
        → ends.new ≡ with_ends (place_in asm.new.places) (ends_in_text text)
        (replicate 256 0)) }
    ensures lack { IfErr result (λ fault. fault ≡ OutOfMemory) }
{
    let mut number = 0;
    for item in items {
        number = lower_item(asm, item, layout, number, names, ends)?;
    }
    Ok(())
}

/// The code of a text that isn't too long.
pub(crate) fn lower_text(
    alloc: Global,
    checked: &Checked,
    layout: &Layout,
) -> Result<Lowered, AsmFault>
    requires planned { plan_of layout.now ≡ plan (items_of checked.now.tree) }
    requires ready { IsReadyText (items_of checked.now.tree) }
    requires once { AreDefinedOnce (items_of checked.now.tree) }
    requires few { count_text (items_of checked.now.tree) ≤ MOST_PARTS }
    ensures code { IfOk result
        (λ lowered. lowered.asm ≡ emitted (items_of checked.now.tree)) }
    ensures ends { IfOk result (λ lowered. lowered.ends
        ≡ with_ends (place_in lowered.asm.places) (ends_in_text (items_of checked.now.tree))
        (replicate 256 0)) }
    ensures lack { IfErr result (λ fault. fault ≡ OutOfMemory) }
{
    let mut asm = Asm::new(alloc);
    let mut names = begin(alloc, checked, layout, &mut asm)?;
    let mut ends = [0; 256];
    let items = &checked.tree().items;
    lower_items(&mut asm, items, layout, &mut names, &mut ends)?;
    Ok(Lowered { asm, ends })
}
