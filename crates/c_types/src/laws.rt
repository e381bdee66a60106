//! Laws of typing.

ghost use Rattle.std.specs.Prelude.{◌≡◌, Some, None, Bool, false, Option};
ghost use Rattle.c_tree.specs.declared.operator.Binary.{Binary};
ghost use Rattle.c_tree.specs.declared.operator.Unary.{Unary};
ghost use Rattle.c_tree.specs.Breaches.{possible_one, may_take};
ghost use Rattle.c_tree.specs.Completed.{IsExact, IsExactPart};
ghost use Rattle.c_tree.specs.HasType.{HasType};
ghost use Rattle.c_tree.specs.Rules.{binary_rule, conditional_rule, index_rule, assign_rule, unary_rule, step_rule, cast_rule};
ghost use Rattle.c_tree.specs.Scope.{Scope};
ghost use Rattle.c_tree.specs.Shapes.{is_void};
ghost use Rattle.c_tree.specs.Ty.{Ty};
ghost use Rattle.c_tree.specs.Expr.{Expr};
ghost use Rattle.c_tree.specs.Typing.{type_at};

/// The type of an expression is the one that the typing rules derive, each rule by itself.
pub fn the_type_is_what_the_rules_derive()
    ensures derived { (scope : Scope) → (e : Expr) → (t : Ty) → HasType scope e t
        → type_at scope e ≡ Some t }
    ensures each { (scope : Scope) → (e : Expr) → (t : Ty) → type_at scope e ≡ Some t
        → HasType scope e t }
{}

/// A node with a part that has no type breaks its rule exactly where no types for such parts would meet it.
pub fn a_rule_is_broken_where_no_types_would_meet_it()
    ensures operators { (op : Binary) → (n m : Bool) → IsExact (binary_rule op n m) }
    ensures choices { (n m : Bool) → IsExact (conditional_rule n m) }
    ensures elements { IsExact index_rule }
    ensures assignments { (how : Option Binary) → (n : Bool) → IsExact (assign_rule how n) }
    ensures prefixes { (op : Unary) → IsExactPart (possible_one (unary_rule op)) (unary_rule op) }
    ensures steps { IsExactPart (possible_one step_rule) step_rule }
    ensures casts { (to : Ty) → IsExactPart (possible_one (cast_rule to)) (cast_rule to) }
    // An argument, an initialiser of a local and a value that is returned, for an object of a type.
    ensures taken { (to : Ty) → (n : Bool) → is_void to ≡ false
        → IsExactPart (may_take to n) (assign_rule None n to) }
{}
