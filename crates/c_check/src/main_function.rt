//! The function that a program begins with (C11 5.1.2.2.1).

ghost use Rattle.std.specs.Prelude.{◌≡◌, map};
ghost use Rattle.c_tree.specs.Accepted.{result_shape, has_no_parameter, is_main, has_main};
ghost use Rattle.c_tree.specs.Shapes.{same};
ghost use Rattle.c_tree.specs.Ty as ty;
ghost use Rattle.c_tree.specs.Item as the_item;
ghost use Rattle.c_tree.specs.View.{param_of, fun_of, item_of};

use c_tree::{CType, Fun, Item, Param};

fn gives_int(f: &Fun) -> bool
    ensures { result ≡ same (result_shape (fun_of f.now)) ty.Int }
{
    f.stars == 0 && matches!(&f.base, CType::Int)
}

fn takes_nothing(params: &[Param]) -> bool
    ensures { result ≡ has_no_parameter (map param_of params.now) }
{
    params.is_empty()
}

fn is_main(f: &Fun) -> bool
    ensures { result ≡ is_main (the_item.Fun (fun_of f.now)) }
{
    f.body.is_some()
        && f.name.get() == b"main".as_slice()
        && gives_int(f)
        && takes_nothing(&f.params)
}

/// Whether a text defines `main` with result int and without parameters.
pub(crate) fn has_main(items: &[Item]) -> bool
    ensures { result ≡ has_main (map item_of items.now) }
{
    for item in items {
        if let Item::Fun(f) = item {
            if is_main(f) {
                return true;
            }
        }
    }
    false
}
