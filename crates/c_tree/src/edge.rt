//! Edges of regions.

use crate::place::Place;

/// A marker that begins or ends a region, with its place and that of the block whose own statement it is.
#[derive(Clone, Copy, Debug)]
pub struct Edge {
    pub begins: bool,
    pub number: u32,
    pub place: Place,
    pub block: Option<Place>,
}
