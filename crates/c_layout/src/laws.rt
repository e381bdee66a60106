//! Laws of layouts.

ghost use Rattle.std.specs.Prelude.{◌≡◌, List};
ghost use Rattle.c_tree.specs.Erase.{erased_text};
ghost use Rattle.c_tree.specs.Item.{Item};
ghost use Rattle.c_layout.specs.declared.limits.TheConstants.{FRAME_BYTES};
ghost use Rattle.c_layout.specs.Frames.{frames};
ghost use Rattle.c_layout.specs.Laid.{plan, is_data_too_large, first_too_large};

/// A text without its markers has the layout of the text, or none for the same reason.
pub fn erased_text_has_the_same_layout()
    ensures plan { (text : List Item) → plan (erased_text text) ≡ plan text }
    ensures data { (text : List Item)
        → is_data_too_large (erased_text text) ≡ is_data_too_large text }
    ensures frames { (text : List Item)
        → first_too_large (frames (erased_text text)) ≡ first_too_large (frames text) }
{}

/// Limits in numbers.
pub fn frame_in_numbers()
    ensures bytes { FRAME_BYTES ≡ 65536 }
{}
