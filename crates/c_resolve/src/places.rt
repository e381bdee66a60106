//! Offsets of locals, from a point of a function on.

ghost use Rattle.std.specs.Prelude.{◌≡◌, drop};
ghost use Rattle.c_semantics.specs.Exec.{first_place};

/// The numbers behind so many.
pub fn past<'a>(numbers: &'a [u32], count: usize) -> &'a [u32]
    ensures { result.now ≡ drop count numbers.now }
{
    if count < numbers.len() {
        &numbers[count..]
    } else {
        &[]
    }
}

/// The first offset, or 0 where there is none.
pub fn first_place(places: &[u32]) -> u32
    ensures { result ≡ first_place places.now }
{
    match places.first() {
        None => 0,
        Some(place) => *place,
    }
}
