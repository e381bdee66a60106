//! Trees that are accepted.

ghost use Rattle.std.specs.Prelude.{◌≡◌};
ghost use Rattle.c_tree.specs.Accepted.{Accepted};

use crate::tree::Tree;

/// A tree that breaks no rule of the language.
#[derive(Drop)]
pub struct Checked {
    tree: Tree,
    ghost accepted: { Accepted tree },
}

impl Checked {
    /// The tree as an accepted one.
    pub fn of(tree: Tree) -> Checked
        requires { Accepted tree }
        ensures { result.tree ≡ tree }
    {
        Checked { tree }
    }

    /// Its tree.
    pub fn tree(&self) -> &Tree
        ensures same { result.now ≡ self.now.tree }
        ensures accepted { Accepted result.now }
    {
        &self.tree
    }
}
