//! The names in scope, with their types.

ghost use Rattle.std.specs.Prelude.{◌≡◌, [], ◌∷◌, ◌++◌, ◌<◌, length, IfOk, OnOk, OnErr, option_map, is_some, map, true};
ghost use Rattle.std.specs.Option.{option_copied};
ghost use Rattle.c_tree.specs.Scope.{look, entered, empty_scope, declared, ObjectOf, FunctionOf};
ghost use Rattle.c_tree.specs.View.{ty_of};

use c_scope::Scope;
use c_tree::{CType, Name, OutOfMemory};
use std::alloc::Global;

/// What a name stands for: an object of a type, or a function.
#[derive(Debug, Drop)]
pub enum Known {
    Object(CType),
    Function {
        /// The type of its result.
        gives: CType,
        params: Vec<CType>,
        /// Whether the text defines it.
        is_defined: bool,
    },
}

/// The names in scope, by the open blocks.
#[derive(Drop)]
pub struct Env {
    names: Scope<Known>,
}

impl Env {
    ghost use Rattle.c_types.specs.Env.{known, scope_of};

    /// One block without names.
    pub fn new(alloc: Global) -> Result<Env, OutOfMemory>
        ensures { IfOk result (λ env. scope_of env ≡ empty_scope) }
    {
        Ok(Env {
            names: Scope::new(alloc),
        })
    }

    /// Opens a block within the innermost one.
    #[tactic(auto, using(crate::proofs::EnvLemmas::mapped_rules))]
    pub fn enter(&mut self) -> Result<(), OutOfMemory>
        ensures entered { OnOk result (scope_of self.new ≡ entered (scope_of self.old)) }
        ensures refused { OnErr result (scope_of self.new ≡ scope_of self.old) }
    {
        self.names.enter()?;
        Ok(())
    }

    /// Closes the innermost block, with a look-up for each of its names.
    #[tactic(auto, using(crate::proofs::EnvLemmas::mapped_rules))]
    pub fn leave(&mut self)
        requires { 0 < length (scope_of self.old).outer }
        ensures { (scope_of self.old).outer
            ≡ (scope_of self.new).outer ++ (scope_of self.new).inner ∷ [] }
    {
        self.names.leave();
    }

    /// Lets a name stand for something in the innermost block.
    #[tactic(auto, using(crate::proofs::EnvLemmas::mapped_rules))]
    pub fn bind(&mut self, name: &Name, entry: Known) -> Result<(), OutOfMemory>
        ensures declared { OnOk result
            (scope_of self.new ≡ declared name.now (known entry) (scope_of self.old)) }
        ensures refused { OnErr result (scope_of self.new ≡ scope_of self.old) }
    {
        self.names.declare(name, entry)?;
        Ok(())
    }

    /// Declares an object in the innermost block.
    pub fn declare(&mut self, name: &Name, ty: CType) -> Result<(), OutOfMemory>
        ensures declared { OnOk result
            (scope_of self.new ≡ declared name.now (ObjectOf (ty_of ty)) (scope_of self.old)) }
        ensures refused { OnErr result (scope_of self.new ≡ scope_of self.old) }
    {
        self.bind(name, Known::Object(ty))
    }

    /// Declares a function in the innermost block by its result and its parameters' types, where a parameter `[]` is a pointer.
    pub fn declare_fun(
        &mut self,
        name: &Name,
        result_type: CType,
        params: Vec<CType>,
    ) -> Result<(), OutOfMemory>
        ensures declared { OnOk result
            (scope_of self.new ≡ declared name.now
            (FunctionOf (ty_of result_type) (map ty_of params.items) true)
            (scope_of self.old)) }
        ensures refused { OnErr result (scope_of self.new ≡ scope_of self.old) }
    {
        let entry = Known::Function {
            gives: result_type,
            params,
            is_defined: true,
        };
        self.bind(name, entry)
    }

    /// What a name stands for in the innermost block.
    #[tactic(auto, using(crate::proofs::EnvLemmas::mapped_rules))]
    pub fn find_here(&self, name: &Name) -> Option<&Known>
        ensures { option_map known (option_copied result) ≡ (scope_of self.now).inner name.now }
    {
        self.names.find_here(name)
    }

    /// Whether the innermost block declares a name.
    #[tactic(auto, using(crate::proofs::EnvLemmas::mapped_rules))]
    pub fn is_here(&self, name: &Name) -> bool
        ensures { result ≡ is_some ((scope_of self.now).inner name.now) }
    {
        self.names.is_here(name)
    }

    /// What a name stands for: the innermost block that declares it counts.
    #[tactic(auto, using(crate::proofs::EnvLemmas::mapped_rules))]
    pub fn find(&self, name: &Name) -> Option<&Known>
        ensures { option_map known (option_copied result) ≡ look (scope_of self.now) name.now }
    {
        self.names.find(name)
    }
}
