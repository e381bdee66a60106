//! The typing rules: the type of a node from the types of its parts, or nothing.

ghost use Rattle.std.specs.Prelude.{◌≡◌, ◌&&◌, ◌||◌, is_some, true, Some};
ghost use Rattle.c_tree.specs.Groups.{group};
ghost use Rattle.c_tree.specs.Ty as the_ty;
ghost use Rattle.c_tree.specs.View.{ty_of};
ghost use Rattle.c_tree.specs.Shapes.{is_integer, is_pointer, promoted};
ghost use Rattle.c_tree.specs.Rules.{arithmetic_rule, shift_rule, sum_rule, difference_rule, order_rule, is_pointer_with, equality_rule, logic_rule, group_rule, conditional_value_rule, takes, combines, fits, index_rule, assign_rule, unary_value_rule, unary_rule, step_rule, cast_rule, is_at, where_right};
ghost use Rattle.c_tree.specs.Typing.{one, both, is_taken};
ghost use Rattle.c_tree.specs.Breaches.{possible_one, possible_right, possible_left, possible_both, may_take};
ghost use Rattle.c_rules.specs.Seen.{seen, seen_some, is_flat, rule_of, part_rule, is_contents};

use crate::seen::{Base, Seen};
use c_tree::{Binary, CType, Group, Unary};

/// `* / % & ^ |` (C11 6.5.5, 6.5.10 to 6.5.12).
fn arithmetic<'a>(a: Seen<'a>, b: Seen<'a>) -> Option<Seen<'a>>
    ensures { seen_some result ≡ arithmetic_rule (seen a.entry) (seen b.entry) }
{
    if a.is_integer() && b.is_integer() {
        Some(a.common(b))
    } else {
        None
    }
}

/// `<< >>` (6.5.7).
fn shift<'a>(a: Seen<'a>, b: Seen) -> Option<Seen<'a>>
    ensures { seen_some result ≡ shift_rule (seen a.entry) (seen b.entry) }
{
    if a.is_integer() && b.is_integer() {
        Some(a.promote())
    } else {
        None
    }
}

/// `+` (6.5.6).
fn sum<'a>(a: Seen<'a>, b: Seen<'a>) -> Option<Seen<'a>>
    ensures { seen_some result ≡ sum_rule (seen a.entry) (seen b.entry) }
{
    if a.is_integer() && b.is_integer() {
        Some(a.common(b))
    } else if a.is_pointer() && b.is_integer() {
        Some(a)
    } else if a.is_integer() && b.is_pointer() {
        Some(b)
    } else {
        None
    }
}

/// `-` (6.5.6).
fn difference<'a>(a: Seen<'a>, b: Seen<'a>) -> Option<Seen<'a>>
    ensures { seen_some result ≡ difference_rule (seen a.entry) (seen b.entry) }
{
    if a.is_integer() && b.is_integer() {
        Some(a.common(b))
    } else if a.is_pointer() && b.is_integer() {
        Some(a)
    } else if a.is_pointer() && a.is_same(b) {
        Some(Seen::Is(Base::Int))
    } else {
        None
    }
}

fn int_where<'a>(right: bool) -> Option<Seen<'a>>
    ensures { seen_some result ≡ where_right right (Some the_ty.Int) }
{
    if right {
        Some(Seen::Is(Base::Int))
    } else {
        None
    }
}

/// `< > <= >=` (6.5.8).
fn order<'a>(a: Seen, b: Seen) -> Option<Seen<'a>>
    ensures { seen_some result ≡ order_rule (seen a.entry) (seen b.entry) }
{
    int_where(a.is_integer() && b.is_integer() || a.is_pointer() && a.is_same(b))
}

/// A pointer beside one of its type, or beside the literal 0.
fn is_pointer_with(a: Seen, nought: bool, b: Seen) -> bool
    ensures { result ≡ is_pointer_with (seen a.entry) nought (seen b.entry) }
{
    a.is_pointer() && (a.is_same(b) || nought)
}

/// `== !=` (6.5.9).
fn equality<'a>(left_nought: bool, right_nought: bool, a: Seen, b: Seen) -> Option<Seen<'a>>
    ensures { seen_some result
        ≡ equality_rule left_nought right_nought (seen a.entry) (seen b.entry) }
{
    int_where(
        a.is_integer() && b.is_integer()
            || is_pointer_with(a, right_nought, b)
            || is_pointer_with(b, left_nought, a),
    )
}

/// `&& ||` (6.5.13, 6.5.14).
fn logic<'a>(a: Seen, b: Seen) -> Option<Seen<'a>>
    ensures { seen_some result ≡ logic_rule (seen a.entry) (seen b.entry) }
{
    int_where(a.is_scalar() && b.is_scalar())
}

/// An operator between two values, arrays already pointers.
fn binary_result<'a>(
    op: Binary,
    left_nought: bool,
    right_nought: bool,
    a: Seen<'a>,
    b: Seen<'a>,
) -> Option<Seen<'a>>
    ensures { seen_some result
        ≡ group_rule (group op) left_nought right_nought (seen a.entry) (seen b.entry) }
{
    match op.group() {
        Group::Or | Group::And => logic(a, b),
        Group::BitOr | Group::BitXor | Group::BitAnd | Group::Product => arithmetic(a, b),
        Group::Equality => equality(left_nought, right_nought, a, b),
        Group::Order => order(a, b),
        Group::Shift => shift(a, b),
        Group::Sum => sum(a, b),
        Group::Difference => difference(a, b),
    }
}

/// The last two operands of `?:`, arrays already pointers (6.5.15).
fn conditional_result<'a>(
    left_nought: bool,
    right_nought: bool,
    a: Seen<'a>,
    b: Seen<'a>,
) -> Option<Seen<'a>>
    ensures { seen_some result
        ≡ conditional_value_rule left_nought right_nought (seen a.entry) (seen b.entry) }
{
    if a.is_integer() && b.is_integer() {
        Some(a.common(b))
    } else if is_pointer_with(a, right_nought, b) {
        Some(a)
    } else if is_pointer_with(b, left_nought, a) {
        Some(b)
    } else {
        None
    }
}

/// `a[i]` is `*(a + i)` (6.5.2.1).
pub fn index_result<'a>(a: Seen<'a>, b: Seen<'a>) -> Option<Seen<'a>>
    ensures ty { seen_some result ≡ index_rule (seen a.entry) (seen b.entry) }
    ensures flat { is_flat result ≡ true }
{
    match sum(a.decay(), b.decay()) {
        Some(sum) => sum.pointee(),
        None => None,
    }
}

/// An object takes a value (6.5.16.1).
fn takes(to: Seen, nought: bool, a: Seen) -> bool
    ensures { result ≡ takes (seen to.entry) nought (seen a.entry) }
{
    to.is_integer() && a.is_integer() || is_pointer_with(to, nought, a)
}

/// A compound assignment (6.5.16.2).
fn combines(op: Binary, to: Seen, a: Seen) -> bool
    ensures { result ≡ combines op (seen to.entry) (seen a.entry) }
{
    (to.is_integer() || to.is_pointer() && op.group().is_sum()) && a.is_integer()
}

fn fits(how: Option<Binary>, to: Seen, nought: bool, a: Seen) -> bool
    ensures { result ≡ fits how (seen to.entry) nought (seen a.entry) }
{
    match how {
        None => takes(to, nought, a),
        Some(op) => combines(op, to, a),
    }
}

/// What an assignment to a place gives.
fn assign_result<'a>(how: Option<Binary>, nought: bool, to: Seen<'a>, a: Seen) -> Option<Seen<'a>>
    ensures { seen_some result ≡ assign_rule how nought (seen to.entry) (seen a.entry) }
{
    if fits(how, to, nought, a.decay()) {
        Some(to)
    } else {
        None
    }
}

/// A rule on the types of two parts.
#[derive(Clone, Copy, Debug)]
pub enum Rule {
    /// An operator, and which of its operands are the literal 0.
    Binary(Binary, bool, bool),
    /// The last two operands of `?:`, and which of them are the literal 0.
    Conditional(bool, bool),
    Index,
    /// An assignment, and whether its right side is the literal 0.
    Assign(Option<Binary>, bool),
}

impl Rule {
    /// The type of the node.
    fn apply<'a>(self, a: Seen<'a>, b: Seen<'a>) -> Option<Seen<'a>>
        ensures { seen_some result ≡ rule_of self (seen a.entry) (seen b.entry) }
    {
        match self {
            Rule::Binary(op, n, m) => binary_result(op, n, m, a.decay(), b.decay()),
            Rule::Conditional(n, m) => conditional_result(n, m, a.decay(), b.decay()),
            Rule::Index => index_result(a, b),
            Rule::Assign(how, n) => assign_result(how, n, a, b),
        }
    }

    /// The type of the node, where both parts have one.
    pub fn both<'a>(self, a: Option<Seen<'a>>, b: Option<Seen<'a>>) -> Option<Seen<'a>>
        ensures { seen_some result ≡ both (rule_of self) (seen_some a.entry) (seen_some b.entry) }
    {
        match (a, b) {
            (Some(a), Some(b)) => self.apply(a, b),
            _ => None,
        }
    }

    fn allows(self, a: Seen, b: Seen) -> bool
        ensures { result ≡ is_some (rule_of self (seen a.entry) (seen b.entry)) }
    {
        self.apply(a, b).is_some()
    }

    fn possible_right(self, a: Seen) -> bool
        ensures { result ≡ possible_right (rule_of self) (seen a.entry) }
    {
        self.allows(a, Seen::Is(Base::Int))
            || self.allows(a, Seen::To(Base::Int))
            || self.allows(a, a.decay())
    }

    fn possible_left(self, b: Seen) -> bool
        ensures { result ≡ possible_left (rule_of self) (seen b.entry) }
    {
        self.allows(Seen::Is(Base::Int), b)
            || self.allows(Seen::To(Base::Int), b)
            || self.allows(b.decay(), b)
    }

    /// Whether some types for the parts that have none make the node right.
    pub fn possible(self, a: Option<Seen>, b: Option<Seen>) -> bool
        ensures { result ≡ possible_both (rule_of self) (seen_some a.entry) (seen_some b.entry) }
    {
        match (a, b) {
            (Some(a), Some(b)) => self.allows(a, b),
            (Some(a), None) => self.possible_right(a),
            (None, Some(b)) => self.possible_left(b),
            (None, None) => {
                self.possible_right(Seen::Is(Base::Int)) || self.possible_right(Seen::To(Base::Int))
            }
        }
    }
}

/// Whether an object of a type takes a value, as by an assignment. The flag says that the value is
/// the literal 0.
pub fn is_taken(to: Seen, nought: bool, value: Option<Seen>) -> bool
    ensures { result ≡ is_taken (seen to.entry) nought (seen_some value.entry) }
{
    Rule::Assign(None, nought).both(Some(to), value).is_some()
}

/// Whether some type for a value that has none, or its own, is taken by an object of a type.
pub fn may_take(to: Seen, nought: bool, value: Option<Seen>) -> bool
    ensures { result ≡ may_take (seen to.entry) nought (seen_some value.entry) }
{
    Rule::Assign(None, nought).possible(Some(to), value)
}

/// `+ - ~ ! *` before a value, an array already a pointer (6.5.3.2, 6.5.3.3).
fn unary_value_result<'a>(op: Unary, a: Seen<'a>) -> Option<Seen<'a>>
    ensures ty { seen_some result ≡ unary_value_rule op (seen a.entry) }
    ensures flat { is_at op ≡ true → is_flat result ≡ true }
{
    match op {
        Unary::Plus => sign(a),
        Unary::Minus => sign(a),
        Unary::Not => int_where(a.is_scalar()),
        Unary::Flip => sign(a),
        Unary::At => a.pointee(),
        Unary::Address => None,
    }
}

fn sign<'a>(a: Seen<'a>) -> Option<Seen<'a>>
    ensures { seen_some result
        ≡ where_right (is_integer (seen a.entry)) (Some (promoted (seen a.entry))) }
{
    if a.is_integer() {
        Some(a.promote())
    } else {
        None
    }
}

/// An operator before its operand.
fn unary_result<'a>(op: Unary, a: Seen<'a>) -> Option<Seen<'a>>
    ensures ty { seen_some result ≡ unary_rule op (seen a.entry) }
    ensures flat { is_at op ≡ true → is_flat result ≡ true }
{
    unary_value_result(op, a.decay())
}

/// `++ --` of a place (6.5.2.4, 6.5.3.1).
fn step_result<'a>(a: Seen<'a>) -> Option<Seen<'a>>
    ensures { seen_some result ≡ step_rule (seen a.entry) }
{
    if a.is_scalar() { Some(a) } else { None }
}

/// A cast from an integer to an integer type (6.5.4).
fn cast_result<'a>(to: &'a CType, a: Seen) -> Option<Seen<'a>>
    ensures { seen_some result ≡ cast_rule (ty_of to.now) (seen a.entry) }
{
    if Seen::of(to).is_integer() && a.decay().is_integer() {
        Some(Seen::of(to))
    } else {
        None
    }
}

/// A rule on the type of one part.
#[derive(Clone, Copy, Debug)]
pub enum PartRule<'a> {
    /// An operator before its operand, other than `&`.
    Unary(Unary),
    Step,
    Cast(&'a CType),
}

impl<'a> PartRule<'a> {
    /// The type of the node.
    fn apply(self, a: Seen<'a>) -> Option<Seen<'a>>
        ensures ty { seen_some result ≡ part_rule self.entry (seen a.entry) }
        ensures flat { is_contents self.entry ≡ true → is_flat result ≡ true }
    {
        match self {
            PartRule::Unary(op) => unary_result(op, a),
            PartRule::Step => step_result(a),
            PartRule::Cast(to) => cast_result(to, a),
        }
    }

    /// The type of the node, where the part has one.
    pub fn one(self, a: Option<Seen<'a>>) -> Option<Seen<'a>>
        ensures ty { seen_some result ≡ one (part_rule self.entry) (seen_some a.entry) }
        ensures flat { is_contents self.entry ≡ true → is_flat result ≡ true }
    {
        match a {
            None => None,
            Some(a) => self.apply(a),
        }
    }

    fn allows(self, a: Seen<'a>) -> bool
        ensures { result ≡ is_some (part_rule self.entry (seen a.entry)) }
    {
        self.apply(a).is_some()
    }

    /// Whether some type for a part that has none makes the node right.
    pub fn possible(self, a: Option<Seen<'a>>) -> bool
        ensures { result ≡ possible_one (part_rule self.entry) (seen_some a.entry) }
    {
        match a {
            Some(a) => self.allows(a),
            None => self.allows(Seen::Is(Base::Int)) || self.allows(Seen::To(Base::Int)),
        }
    }
}
