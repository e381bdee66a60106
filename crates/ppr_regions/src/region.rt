//! Regions.

ghost use Rattle.std.specs.Prelude.{◌≡◌};
ghost use Rattle.ppr_regions.specs.RegionRule.{meet, region_after};

use crate::event::Event;

/// A region that is open: its number, and the stack pointer with which it was begun.
#[derive(Clone, Copy, Debug, PartialEq, Eq)]
pub struct Region {
    pub id: u32,
    pub sp: u32,
}

/// What an event does to the regions.
#[derive(Clone, Copy, Debug, PartialEq, Eq)]
pub enum Met {
    Opens(Region),
    Closes,
    Skips,
}

/// What an event does, where `region` is open and the stack pointer is `sp`. Of an `End`, `home`
/// tells that the program goes on where the region of this number ends.
pub fn meet(region: Option<Region>, event: &Event, sp: u32, home: bool) -> Met
    ensures { result ≡ meet region event.now sp home }
{
    match (*event, region) {
        (Event::Begin(id), None) => Met::Opens(Region { id, sp }),
        (Event::End(id), Some(open)) if home && open == (Region { id, sp }) => Met::Closes,
        _ => Met::Skips,
    }
}

impl Met {
    /// The open region after the event, where `region` was open before it.
    pub fn region_after(self, region: Option<Region>) -> Option<Region>
        ensures { result ≡ region_after region self }
    {
        match self {
            Met::Opens(opened) => Some(opened),
            Met::Closes => None,
            Met::Skips => region,
        }
    }
}
