//! Operators, and the classes of globals.

ghost use Rattle.std.specs.Prelude.{◌≡◌};
ghost use Rattle.c_tree.specs.Groups.{group, is_logic, is_order, is_shift, is_sum, gives_truth, decides};

/// An operator before its one operand: `+ - ! ~ * &`, in this order.
#[derive(Clone, Copy, Debug, PartialEq, Eq)]
pub enum Unary {
    Plus,
    Minus,
    Not,
    Flip,
    At,
    Address,
}

/// `++` and `--` before their operand, and then behind it.
#[derive(Clone, Copy, Debug, PartialEq, Eq)]
pub enum Step {
    RaiseFirst,
    LowerFirst,
    RaiseLast,
    LowerLast,
}

/// An operator between two operands: `|| && | ^ & == != < > <= >= << >> + - * / %`, in this order.
#[derive(Clone, Copy, Debug, PartialEq, Eq)]
pub enum Binary {
    Or,
    And,
    BitOr,
    BitXor,
    BitAnd,
    Equal,
    Unequal,
    Less,
    Greater,
    LessEqual,
    GreaterEqual,
    Left,
    Right,
    Plus,
    Minus,
    Times,
    Divide,
    Rest,
}

/// The operators of one section of the standard (C11 6.5.5 to 6.5.14), which have one rule; `+` and `-` have one each.
#[derive(Clone, Copy, Debug, PartialEq, Eq)]
pub enum Group {
    Or,
    And,
    BitOr,
    BitXor,
    BitAnd,
    Equality,
    Order,
    Shift,
    Sum,
    Difference,
    Product,
}

impl Binary {
    /// The group that it belongs to.
    pub fn group(self) -> Group
        ensures { result ≡ group self }
    {
        match self {
            Binary::Or => Group::Or,
            Binary::And => Group::And,
            Binary::BitOr => Group::BitOr,
            Binary::BitXor => Group::BitXor,
            Binary::BitAnd => Group::BitAnd,
            Binary::Equal | Binary::Unequal => Group::Equality,
            Binary::Less | Binary::Greater => Group::Order,
            Binary::LessEqual | Binary::GreaterEqual => Group::Order,
            Binary::Left | Binary::Right => Group::Shift,
            Binary::Plus => Group::Sum,
            Binary::Minus => Group::Difference,
            Binary::Times | Binary::Divide | Binary::Rest => Group::Product,
        }
    }
}

impl Group {
    /// `&& ||`
    pub fn is_logic(self) -> bool
        ensures { result ≡ is_logic self }
    {
        matches!(self, Group::Or | Group::And)
    }

    /// `< > <= >=`
    pub fn is_order(self) -> bool
        ensures { result ≡ is_order self }
    {
        matches!(self, Group::Order)
    }

    /// `<< >>`
    pub fn is_shift(self) -> bool
        ensures { result ≡ is_shift self }
    {
        matches!(self, Group::Shift)
    }

    /// `+ -`
    pub fn is_sum(self) -> bool
        ensures { result ≡ is_sum self }
    {
        matches!(self, Group::Sum | Group::Difference)
    }

    /// Comparisons, `&&` and `||`, which give 1 or 0.
    pub fn gives_truth(self) -> bool
        ensures { result ≡ gives_truth self }
    {
        self.is_logic() || self.is_order() || matches!(self, Group::Equality)
    }

    /// Whether the first operand of `&&` or `||` decides, by its value.
    pub fn decides(self, first: u32) -> bool
        ensures { result ≡ decides self first }
    {
        match self {
            Group::And => first == 0,
            Group::Or => first != 0,
            _ => false,
        }
    }
}

/// How a global is kept: on pages that tasks share, on pages whose values are checked, or on pages of its own.
#[derive(Clone, Copy, Debug, PartialEq, Eq)]
pub enum Keep {
    Shared,
    Checked,
    Private,
}
