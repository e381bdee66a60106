//! Classes of pages.

ghost use Rattle.std.specs.Prelude.{◌≡◌};
ghost use Rattle.bop_bits.specs.Class.{class_of};

use crate::map::STACK_PAGE;

/// How a page's bytes are kept: shared by tasks, checked by value, or a task's own.
#[derive(Clone, Copy, Debug, PartialEq, Eq)]
pub enum Class {
    Shared,
    Checked,
    Private,
}

/// The numbers of the first checked page, of the first private one, and of the first behind the private ones.
#[derive(Clone, Copy, Debug, PartialEq, Eq)]
pub struct Classes {
    pub checked_from: u32,
    pub private_from: u32,
    pub private_to: u32,
}

impl Classes {
    /// The class of a page. The stack's pages are private, whatever the numbers are.
    pub fn class(&self, page: u32) -> Class
        ensures { result ≡ class_of self.now page }
    {
        if page >= STACK_PAGE {
            Class::Private
        } else if self.checked_from <= page && page < self.private_from {
            Class::Checked
        } else if self.private_from <= page && page < self.private_to {
            Class::Private
        } else {
            Class::Shared
        }
    }
}
