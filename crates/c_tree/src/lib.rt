//! Trees of the source language.
#![tactic(auto)]

mod bare;
mod breach;
mod checked;
mod copy;
mod ctype;
mod edge;
mod laws;
mod limits;
mod name;
mod operator;
mod place;
mod spine;
mod storage;
mod tree;
mod undefined;
mod usage;

pub use bare::erase;
pub use bop_ends::OutOfMemory;
pub use breach::{Breach, Broken, Least, Ranking};
pub use checked::Checked;
pub use ctype::CType;
pub use edge::Edge;
pub use laws::{
    erased_text_has_no_marker, erased_tree_is_accepted, erasing_twice_is_erasing_once,
    limits_in_numbers, unmarked_text_stays,
};
pub use limits::{CHANNELS, END_OF_FILE, MOST_PARAMETERS, REGIONS};
pub use name::Name;
pub use operator::{Binary, Group, Keep, Step, Unary};
pub use place::Place;
pub use spine::first_operand;
pub use storage::Storage;
pub use tree::{
    Callee, Count, Expr, ExprKind, First, Fun, Init, Item, Marker, Param, Stmt, StmtKind, Tree, Var,
};
pub use undefined::Undefined;
pub use usage::Use;
