//! Where a reader stands.

ghost use Rattle.std.specs.Prelude.{◌≡◌, ◌+◌, ◌<◌, ◌≤◌, ◌^◌, length};

use crate::byte::is_blank;
use c_tree::Place;

/// A place, and whether only blanks and tabs stand before it on its line.
#[derive(Clone, Copy)]
pub struct Spot {
    pub place: Place,
    pub fresh: bool,
}

impl Spot {
    ghost use Rattle.c_token.specs.Spots.{after, past, beginning};

    pub fn beginning() -> Self
        ensures { result ≡ beginning }
    {
        Spot {
            place: Place { line: 1, column: 1 },
            fresh: true,
        }
    }

    fn after(self, byte: u8) -> Self
        requires { self.place.line + self.place.column + 1 < 2 ^ 32 }
        ensures { result ≡ after self byte }
    {
        if byte == b'\n' {
            Spot {
                place: Place {
                    line: self.place.line + 1,
                    column: 1,
                },
                fresh: true,
            }
        } else {
            Spot {
                place: Place {
                    line: self.place.line,
                    column: self.place.column + 1,
                },
                fresh: self.fresh && is_blank(byte),
            }
        }
    }

    pub fn past(self, bytes: &[u8]) -> Self
        requires column { 1 ≤ self.place.column }
        requires room { self.place.line + self.place.column + length bytes.now < 2 ^ 32 }
        ensures { result ≡ past self bytes.now }
    {
        let mut spot = self;
        for byte in bytes {
            spot = spot.after(*byte);
        }
        spot
    }
}
