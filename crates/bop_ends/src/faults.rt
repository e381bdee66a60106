//! How often an end has failed.

ghost use Rattle.std.specs.Prelude.{◌≡◌, ◌≤◌};
ghost use Rattle.bop_ends.specs.Ends.{RaisedOnce};

/// How many faults an end has counted. The count stands still at the end of its 64 bits.
#[derive(Clone, Copy)]
pub struct Faults {
    count: u64,
}

impl Faults {
    /// No fault.
    pub fn none() -> Faults
        ensures { result.count ≡ 0 }
    {
        Faults { count: 0 }
    }

    /// Counts one fault more.
    pub fn raise(&mut self)
        ensures once { RaisedOnce self.old.count self.new.count }
        ensures later { self.old.count ≤ self.new.count }
    {
        self.count = self.count.saturating_add(1);
    }
}
