//! Where the next globals stand.

ghost use Rattle.std.specs.Prelude.{◌≡◌, ◌≤◌};
ghost use Rattle.c_layout.specs.declared.limits.TheConstants.{FAR};

use crate::limits::FAR;
use c_tree::Keep;

/// Where the next global of each kind stands at the earliest.
#[derive(Clone, Copy)]
pub(crate) struct Next {
    pub(crate) shared: u32,
    pub(crate) checked: u32,
    pub(crate) private: u32,
    ghost shared_limit: { shared ≤ FAR },
    ghost checked_limit: { checked ≤ FAR },
    ghost private_limit: { private ≤ FAR },
}

impl Next {
    ghost use Rattle.c_layout.specs.private.Capped.{cursors_of};
    ghost use Rattle.c_layout.specs.Globals.{cursor, moved};

    /// Where the next global of a kind stands at the earliest.
    pub(crate) fn get(self, keep: Keep) -> u32
        ensures limit { result ≤ FAR }
        ensures value { result ≡ cursor keep (cursors_of self) }
    {
        match keep {
            Keep::Shared => self.shared,
            Keep::Checked => self.checked,
            Keep::Private => self.private,
        }
    }

    /// The next global of a kind stands from an address on.
    pub(crate) fn move_on(self, keep: Keep, at: u32) -> Next
        requires { at ≤ FAR }
        ensures { cursors_of result ≡ moved keep at (cursors_of self) }
    {
        match keep {
            Keep::Shared => Next {
                shared: at,
                checked: self.checked,
                private: self.private,
            },
            Keep::Checked => Next {
                shared: self.shared,
                checked: at,
                private: self.private,
            },
            Keep::Private => Next {
                shared: self.shared,
                checked: self.checked,
                private: at,
            },
        }
    }
}
