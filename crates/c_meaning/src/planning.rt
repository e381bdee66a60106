//! Work that is planned.

ghost use Rattle.std.specs.Prelude.{◌≡◌, ◌++◌, map, reverse, OnOk};
ghost use Rattle.c_meaning.specs.declared.pending.Work.TheVariants as item;

pub(crate) mod evaluating;
pub(crate) mod executing;

use crate::pending::{Task, Work};
use c_tree::OutOfMemory;

/// Plans tasks before all other work, in their order.
pub(crate) fn plan<'a>(work: &mut Vec<Work<'a>>, tasks: &[Task<'a>]) -> Result<(), OutOfMemory>
    ensures { OnOk result (reverse work.new.items
        ≡ map item.Task tasks.now ++ reverse work.old.items) }
{
    let mut left = tasks.len();
    while 0 < left {
        left -= 1;
        work.push(Work::Task(tasks[left]))?;
    }
    Ok(())
}
