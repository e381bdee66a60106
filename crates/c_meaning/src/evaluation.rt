//! A program that is evaluated.

use crate::machine::Machine;
use crate::pending::Pending;

/// A program that is evaluated: what is still to be done, and the machine that does it.
#[derive(Drop)]
pub(crate) struct Evaluation<'a> {
    pub(crate) pending: Pending<'a>,
    pub(crate) machine: Machine,
}
