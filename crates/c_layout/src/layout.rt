//! The layout of a text.

ghost use Rattle.std.specs.Prelude.{◌≡◌, ◌<◌, ◌++◌, [], ◌∷◌, None, Some, false, map, length, slice_get, slice_index, IfOk, OnOk, IfErr, OnErr, MatchResult};
ghost use Rattle.c_tree.specs.View.{fun_of, item_of, items_of};
ghost use Rattle.c_layout.specs.Frames.{framed, frames};
ghost use Rattle.c_layout.specs.Laid.{plan, planned, is_data_too_large, first_too_large};
ghost use Rattle.c_layout.specs.LayoutAnswers.{planned_of, plan_of, IsFrameFault, IsFault};

use crate::fault::LayoutFault;
use crate::frame::{Frame, frame_of};
use crate::globals::{addresses, classes, sections_of};
use bop_bits::{Classes, STACK_FROM};
use c_tree::{Checked, Fun, Item, Tree};
use std::alloc::Global;

/// Where all objects of a text stand.
#[derive(Debug, Drop)]
pub struct Layout {
    globals: Vec<u32>,
    frames: Vec<Frame>,
    classes: Classes,
}

impl Layout {
    /// How many globals there are.
    pub fn global_count(&self) -> usize
        ensures { result ≡ length (plan_of self.now).globals }
    {
        self.globals.len()
    }

    /// How many functions are defined.
    pub fn frame_count(&self) -> usize
        ensures { result ≡ length (plan_of self.now).frames }
    {
        self.frames.len()
    }

    /// The address of a global, by its number in order of declaration.
    pub fn global(&self, item: u32) -> u32
        requires { item < length (plan_of self.now).globals }
        ensures { result ≡ slice_index (plan_of self.now).globals item }
    {
        self.globals[item as usize]
    }

    /// The frame of a function that is defined, by its number in the order of the text.
    pub fn frame(&self, fun: u32) -> &Frame
        requires { fun < length (plan_of self.now).frames }
        ensures { slice_get (plan_of self.now).frames fun ≡ Some (planned_of result.now) }
    {
        &self.frames[fun as usize]
    }

    /// The classes of the pages.
    pub fn classes(&self) -> Classes
        ensures { result ≡ (plan_of self.now).classes }
    {
        self.classes
    }
}

fn push_frame(alloc: Global, f: &Fun, out: &mut Vec<Frame>) -> Result<(), LayoutFault>
    ensures frames { OnOk result
        (map planned_of out.new.items
        ≡ map planned_of out.old.items ++ map planned (framed (fun_of f.now) (fun_of f.now).body)) }
    ensures fit { OnOk result (first_too_large (framed (fun_of f.now) (fun_of f.now).body) ≡ None) }
    ensures err { IfErr result (IsFrameFault (framed (fun_of f.now) (fun_of f.now).body)) }
{
    let Some(body) = &f.body else {
        return Ok(());
    };
    match frame_of(alloc, &f.params, body)? {
        None => Err(LayoutFault::FrameTooLarge(f.place)),
        Some(frame) => Ok(out.push(frame)?),
    }
}

fn push_item(alloc: Global, item: &Item, out: &mut Vec<Frame>) -> Result<(), LayoutFault>
    ensures frames { OnOk result
        (map planned_of out.new.items
        ≡ map planned_of out.old.items ++ map planned (frames (item_of item.now ∷ []))) }
    ensures fit { OnOk result (first_too_large (frames (item_of item.now ∷ [])) ≡ None) }
    ensures err { IfErr result (IsFrameFault (frames (item_of item.now ∷ []))) }
{
    match item {
        Item::Vars(_, _) => Ok(()),
        Item::Fun(f) => push_frame(alloc, f, out),
    }
}

/// The frames of the functions that are defined.
fn frames(alloc: Global, items: &[Item]) -> Result<Vec<Frame>, LayoutFault>
    ensures frames { IfOk result
        (λ out. map planned_of out.items ≡ map planned (frames (map item_of items.now))) }
    ensures fit { OnOk result (first_too_large (frames (map item_of items.now)) ≡ None) }
    ensures err { IfErr result (IsFrameFault (frames (map item_of items.now))) }
{
    let mut out = Vec::new(alloc);
    for item in items {
        push_item(alloc, item, &mut out)?;
    }
    Ok(out)
}

/// The layout of a tree, accepted or not.
pub fn layout_of(alloc: Global, tree: &Tree) -> Result<Layout, LayoutFault>
    ensures { MatchResult result
        (λ layout. (plan_of layout ≡ plan (items_of tree.now))
        × (is_data_too_large (items_of tree.now) ≡ false)
        × (first_too_large (frames (items_of tree.now)) ≡ None))
        (IsFault (items_of tree.now)) }
{
    let items = tree.items.as_slice();
    let sections = sections_of(items);
    if sections.private_to > STACK_FROM {
        return Err(LayoutFault::DataTooLarge);
    }
    let globals = addresses(alloc, items, sections)?;
    let frames = frames(alloc, items)?;
    Ok(Layout {
        globals,
        frames,
        classes: classes(sections),
    })
}

/// Where the objects of an accepted text stand.
pub fn lay_out(alloc: Global, checked: &Checked) -> Result<Layout, LayoutFault>
    ensures { MatchResult result
        (λ layout. (plan_of layout ≡ plan (items_of checked.now.tree))
        × (is_data_too_large (items_of checked.now.tree) ≡ false)
        × (first_too_large (frames (items_of checked.now.tree)) ≡ None))
        (IsFault (items_of checked.now.tree)) }
{
    layout_of(alloc, checked.tree())
}
