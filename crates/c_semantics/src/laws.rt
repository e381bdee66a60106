//! Laws of the meaning.

ghost use Rattle.std.specs.Prelude.{◌≡◌, ℕ, ◌+◌, List, [], Option, true};
ghost use Rattle.byte_lists.specs.Prefix.{IsPrefix};
ghost use Rattle.c_tree.specs.declared.tree.Tree.{Tree};
ghost use Rattle.c_tree.specs.Accepted.{Accepted, has_main, text_breaches};
ghost use Rattle.c_tree.specs.Erase.{erased_text};
ghost use Rattle.c_tree.specs.Ty.{Ty};
ghost use Rattle.c_tree.specs.Expr.{Expr};
ghost use Rattle.c_tree.specs.Stmt.{Stmt};
ghost use Rattle.c_tree.specs.Item.{Item};
ghost use Rattle.c_tree.specs.View.{items_of};
ghost use Rattle.c_semantics.specs.Eval.{eval};
ghost use Rattle.c_semantics.specs.Evaluated.{IsRunnable};
ghost use Rattle.c_semantics.specs.Exec.{exec, step, test};
ghost use Rattle.c_semantics.specs.Meaning.{calls_at, meant};
ghost use Rattle.c_semantics.specs.Names.{Names};
ghost use Rattle.c_semantics.specs.Outcome.{has_ended, output_of};
ghost use Rattle.c_semantics.specs.Run.{pure};
ghost use Rattle.c_semantics.specs.Wider.{NeedsNoMoreTests, meant_deeper};

/// Where a run comes to its end within some steps, more steps change nothing.
pub fn later_answer_stays()
    ensures { (text : List Item) (input : List ℕ) (n k : ℕ) → has_ended (meant text input n) ≡ true
        → meant text input (n + k) ≡ meant text input n }
{}

/// With more steps the output goes on, or it is the same.
pub fn output_grows()
    ensures { (text : List Item) (input : List ℕ) (n k : ℕ)
        → IsPrefix (output_of (meant text input n)) (output_of (meant text input (n + k))) }
{}

/// A text without its markers means what the text means.
pub fn markers_mean_nothing()
    ensures { (text : List Item) (input : List ℕ) (n : ℕ)
        → meant (erased_text text) input n ≡ meant text input n }
{}

/// The bounds on how deep calls nest and on how often a loop tests never matter: wider ones change nothing.
pub fn wider_bounds_change_nothing()
    ensures calls { (text : List Item) (input : List ℕ) (n k : ℕ)
        → meant_deeper k text input n ≡ meant text input n }
    ensures loops { (text : List Item) (input : List ℕ) (depth : ℕ) (result : Ty) (names : Names)
        (places : List ℕ)
        (c : Expr) (s : Stmt) → let calls = calls_at text input depth in
        NeedsNoMoreTests (eval input calls names c) (exec input calls result names places s)
        (pure tt) }
    ensures for_loops { (text : List Item) (input : List ℕ) (depth : ℕ) (result : Ty)
        (names : Names) (places : List ℕ)
        (c d : Option Expr) (s : Stmt) → let calls = calls_at text input depth in
        NeedsNoMoreTests (test input calls names c) (exec input calls result names places s)
        (step input calls names d) }
{}

/// What an accepted text evaluates has a type, a place or a definition, wherever its meaning takes one for granted.
pub fn an_accepted_text_has_types()
    ensures text { (text : List Item) → text_breaches text ≡ [] → has_main text ≡ true
        → IsRunnable text }
    ensures tree { (tree : Tree) → Accepted tree → IsRunnable (items_of tree) }
{}
