//! The names in scope, with their types and addresses, and the labels of functions.

ghost use Rattle.std.specs.List.{range_with_len};
ghost use Rattle.std.specs.Prelude.{◌≡◌, ◌<◌, ◌++◌, ◌∷◌, [], List, length, IfErr, IfOk, OnOk, OnErr};
ghost use Rattle.c_tree.specs.declared.place.Place.{Place as At};
ghost use Rattle.c_tree.specs.Blocks.{entered};
ghost use Rattle.c_tree.specs.Expr as expr;
ghost use Rattle.c_tree.specs.View.{items_of, ty_of};
ghost use Rattle.c_layout.specs.Globals.{globals, addresses};
ghost use Rattle.c_layout.specs.Laid.{plan};
ghost use Rattle.c_layout.specs.LayoutAnswers.{plan_of};
ghost use Rattle.c_resolve.specs.Routines.{definitions_of};
ghost use Rattle.c_semantics.specs.declared.home.Home.TheVariants.{InFrame};
ghost use Rattle.c_semantics.specs.Meaning.{names_of};
ghost use Rattle.c_semantics.specs.Names.{Definition, Variable, home_of, no_names, with_name};
ghost use Rattle.low_labels.specs.declared.fault.AsmFault.TheVariants.{OutOfMemory as Lack};
ghost use Rattle.low_expr.specs.ExprCode.{held_in};
ghost use Rattle.low_expr.specs.Lowering.{fresh_by};

use c_layout::Layout;
use c_resolve::{Named, Names as Known, Numbers, held_of, number_all, text_names};
use c_semantics::{Held, Home};
use c_tree::{CType, Checked, Name, OutOfMemory};
use low_labels::{Asm, AsmFault, Label};
use std::alloc::Global;

/// So many new labels.
#[tactic(auto, using(crate::proofs::LabelNumbers::made_labels, crate::proofs::MarkLemmas::fresh_length))]
fn make_labels(alloc: Global, count: u32, asm: &mut Asm) -> Result<Vec<Label>, AsmFault>
    ensures labels { IfOk result
        (λ labels. labels.items ≡ range_with_len (length asm.old.places) count) }
    ensures made { OnOk result (asm.new ≡ fresh_by count asm.old) }
    ensures lack { IfErr result (λ fault. fault ≡ Lack) }
{
    let mut labels = Vec::new(alloc);
    for _label in 0..count {
        labels.push(asm.label()?)?;
    }
    Ok(labels)
}

/// Where a variable is, and what it holds.
#[derive(Clone, Copy, Debug)]
pub struct Site {
    pub home: Home,
    pub held: Held,
}

/// The names in scope, and the labels of the functions that a text defines, in its order.
#[derive(Drop)]
pub struct Names {
    pub(crate) known: Known,
    pub(crate) numbers: Numbers,
    pub(crate) labels: Vec<Label>,
}

impl Names {
    ghost use Rattle.std.specs.Prelude.{slice_index};
    ghost use Rattle.c_resolve.specs.DeclaredNames.{blocks_in, indexed_at};
    ghost use Rattle.low_expr.specs.LabelledNames.{scope_in, found_label, AreFunctionsOf, HasLabels, HasSameFunctions};

    /// The globals and the functions of a text, with a new label for each function that it defines.
    pub fn new(
        alloc: Global,
        checked: &Checked,
        layout: &Layout,
        asm: &mut Asm,
    ) -> Result<Names, AsmFault>
        requires { plan_of layout.now ≡ plan (items_of checked.now.tree) }
        ensures scope { IfOk result (λ names. let text = items_of checked.now.tree in
            scope_in (definitions_of text) names
            ≡ names_of text (addresses (globals text)) text no_names) }
        ensures functions { IfOk result
            (λ names. AreFunctionsOf (items_of checked.now.tree) names) }
        ensures numbered { IfOk result (λ names. names.labels.items
            ≡ range_with_len (length asm.old.places) names.numbers.count) }
        ensures labels { IfOk result (λ names. HasLabels names (length asm.new.places)) }
        ensures made { OnOk result (asm.new
            ≡ fresh_by (length (definitions_of (items_of checked.now.tree))) asm.old) }
        ensures lack { IfErr result (λ fault. fault ≡ Lack) }
    {
        let tree = checked.tree();
        let numbers = number_all(alloc, &tree.items)?;
        let known = text_names(alloc, tree, layout, &numbers)?;
        let labels = make_labels(alloc, numbers.count(), asm)?;
        Ok(Names {
            known,
            numbers,
            labels,
        })
    }

    /// Opens a block within the innermost one.
    pub fn enter(&mut self) -> Result<(), OutOfMemory>
        ensures entered { OnOk result
            (blocks_in self.new.known ≡ entered (blocks_in self.old.known)) }
        ensures refused { OnErr result (blocks_in self.new.known ≡ blocks_in self.old.known) }
        ensures functions { HasSameFunctions self.old self.new }
    {
        self.known.enter()
    }

    /// Closes the innermost block.
    pub fn leave(&mut self)
        requires { 0 < length (blocks_in self.old.known).outer }
        ensures left { (blocks_in self.old.known).outer
            ≡ (blocks_in self.new.known).outer ++ (blocks_in self.new.known).inner ∷ [] }
        ensures functions { HasSameFunctions self.old self.new }
    {
        self.known.leave();
    }

    /// Declares a variable of a frame in the innermost block, where it hides another of the same
    /// bytes.
    pub fn declare(&mut self, name: &Name, ty: CType, offset: u32) -> Result<(), OutOfMemory>
        ensures declared { OnOk result ((definitions : List Definition)
            → scope_in definitions self.new
            ≡ with_name name.now (Variable (ty_of ty) (InFrame offset))
            (scope_in definitions self.old)) }
        ensures kept { OnOk result
            ((blocks_in self.new.known).outer ≡ (blocks_in self.old.known).outer) }
        ensures refused { OnErr result (blocks_in self.new.known ≡ blocks_in self.old.known) }
        ensures functions { HasSameFunctions self.old self.new }
    {
        let stands_for = Named::Variable(ty, Home::InFrame(offset));
        self.known.declare(name, stands_for)
    }

    /// Where names take their memory.
    pub fn alloc(&self) -> Global
        ensures { result ≡ self.now.known.alloc }
    {
        self.known.alloc()
    }

    /// Where the variable of a name is, and what it holds.
    pub fn site(&self, name: &Name) -> Site
        ensures home { (definitions : List Definition)
            → result.home ≡ home_of (scope_in definitions self.now name.now) }
        ensures held { (definitions : List Definition) → (at : At)
            → result.held ≡ held_in (scope_in definitions self.now) (expr.Name name.now at) }
    {
        match self.known.find(name) {
            Some(Named::Variable(ty, home)) => Site {
                home: *home,
                held: held_of(ty),
            },
            _ => Site {
                home: Home::Nowhere,
                held: Held::Word,
            },
        }
    }

    /// The label of a function by its name, where the text defines it.
    pub fn find_label(&self, name: &Name) -> Option<Label>
        ensures { result ≡ found_label self.now.labels.items
            (indexed_at self.now.numbers.numbers name.now) }
    {
        match self.numbers.find(name.get()) {
            None => None,
            Some(number) => self.labels.get(number as usize).copied(),
        }
    }

    /// The label of a function, by its number in the order of the text.
    pub fn label_of(&self, fun: u32) -> Label
        requires { fun < length self.now.labels.items }
        ensures { result ≡ slice_index self.now.labels.items fun }
    {
        self.labels[fun as usize]
    }
}
