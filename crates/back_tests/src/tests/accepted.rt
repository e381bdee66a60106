//! Texts that are accepted.

ghost use Rattle.std.specs.Prelude.{◌≡◌, IfOk};
ghost use Rattle.c_layout.specs.Laid.{plan};
ghost use Rattle.c_layout.specs.LayoutAnswers.{plan_of};
ghost use Rattle.c_tree.specs.View.{items_of};

use c_layout::Layout;
use c_tree::Checked;
use low_link::front;
use std::alloc::Global;
use std::test::Fail;

/// The tree of a text that is accepted, and its layout.
pub(super) fn accepted(alloc: Global, text: &str) -> Result<(Checked, Layout), Fail>
    ensures { IfOk result (λ x. plan_of x.1 ≡ plan (items_of x.0.tree)) }
{
    let bytes = text.as_bytes();
    if bytes.len() > 1_048_576 {
        return Err(Fail::from("a text that is too long"));
    }
    match front(alloc, bytes) {
        Ok(items_of) => Ok(items_of),
        Err(refused) => Err(Fail::from(refused)),
    }
}
