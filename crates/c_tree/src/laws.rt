//! Laws of limits and of erasing markers.

ghost use Rattle.std.specs.Prelude.{◌≡◌, List, []};
ghost use Rattle.c_tree.specs.declared.limits.TheConstants.{CHANNELS, END_OF_FILE, MOST_PARAMETERS, REGIONS};
ghost use Rattle.c_tree.specs.declared.tree.Tree.{Tree};
ghost use Rattle.c_tree.specs.Item.{Item};
ghost use Rattle.c_tree.specs.View.{items_of};
ghost use Rattle.c_tree.specs.Accepted.{Accepted};
ghost use Rattle.c_tree.specs.Erase.{erased_text};
ghost use Rattle.c_tree.specs.Markers.{text_markers};

/// Limits and fixed values in numbers.
pub fn limits_in_numbers()
    ensures channels { CHANNELS ≡ 64 }
    ensures end_of_file { END_OF_FILE ≡ 4294967295 }
    ensures parameters { MOST_PARAMETERS ≡ 8 }
    ensures regions { REGIONS ≡ 256 }
{}

/// An erased text has no marker.
pub fn erased_text_has_no_marker()
    ensures { (text : List Item) → text_markers (erased_text text) ≡ [] }
{}

/// A text without markers stays.
pub fn unmarked_text_stays()
    ensures { (text : List Item) → text_markers text ≡ [] → erased_text text ≡ text }
{}

/// Erasing twice is erasing once.
pub fn erasing_twice_is_erasing_once()
    ensures { (text : List Item) → erased_text (erased_text text) ≡ erased_text text }
{}

/// The erased tree of an accepted tree is accepted.
pub fn erased_tree_is_accepted()
    ensures { (tree bare : Tree) → items_of bare ≡ erased_text (items_of tree) → Accepted tree
        → Accepted bare }
{}
