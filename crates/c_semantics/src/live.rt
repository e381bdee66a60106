//! The objects that live, with look-up by address in constant time.

ghost use Rattle.std.specs.Prelude.{◌≡◌, ◌+◌, ◌-◌, ◌<◌, ◌≤◌, ◌↔◌, ◌∷◌, ◌++◌, [], ℕ, List, IsTrue, IfOk, OnOk, OnErr, length, take, pos, All};
ghost use Rattle.std.specs.List.{list_any};
ghost use Rattle.c_semantics.specs.Live.{HasByte, LiesInMemory, StandFirst, owner_at, owner_holds};
ghost use Rattle.c_semantics.specs.Memory.{holds};
ghost use Rattle.c_semantics.specs.Pointers.{are_along};
ghost use Rattle.c_semantics.specs.declared.object.Object.{Object};

use crate::object::Object;
use bop_bits::{DATA_FROM, MEMORY_BYTES};
use c_tree::OutOfMemory;
use std::alloc::Global;
use std::marker::Model;

/// The objects that live, the oldest first, which contracts see as their list.
#[derive(Drop)]
pub struct Live {
    objects: Vec<Object>,
    /// The owner of each byte of the memory.
    owners: Vec<u32>,
    /// How many objects, the first ones, own their bytes. The others are searched one by one: the
    /// first of them has no byte, or bytes outside the memory or of an older object, or is one
    /// more than numbers count.
    standing: usize,
}

impl Model for Live {
    ghost Value = { List Object };

    ghost view = { λ live. live.objects.items };

    ghost invariant = { λ live. StandFirst live.objects.items live.owners.items live.standing };
}

/// So many cells without owners.
fn no_owners(alloc: Global, count: usize) -> Result<Vec<u32>, OutOfMemory>
    ensures cells { IfOk result (λ owners. length owners.items ≡ count) }
    ensures free { IfOk result (λ owners. All (λ owner. owner ≡ 0) owners.items) }
{
    Ok(vec![in alloc; 0; count]?)
}

/// The owner of the byte at an address.
fn owner(owners: &[u32], at: u64) -> u32
    ensures { result ≡ owner_at owners.now at }
{
    match at.checked_sub(u64::from(DATA_FROM)) {
        Some(cell) => owners.get(cell as usize).copied().unwrap_or(0),
        None => 0,
    }
}

/// Whether an owner holds so many bytes from an address on.
fn owner_holds(objects: &[Object], owner: u32, at: u64, size: u64) -> bool
    ensures { result ≡ owner_holds objects.now owner at size }
{
    match owner.checked_sub(1) {
        Some(number) => objects
            .get(number as usize)
            .is_some_and(|object| object.holds(at, size)),
        None => false,
    }
}

/// Whether one of some objects holds so many bytes from an address on.
fn any_holds(objects: &[Object], at: u64, size: u64) -> bool
    ensures { result ≡ list_any (holds at size) objects.now }
{
    objects.iter().any(|object| object.holds(at, size))
}

/// Whether no cell has an owner.
fn are_free(owners: &[u32]) -> bool
    ensures { IsTrue result ↔ All (λ owner. owner ≡ 0) owners.now }
{
    owners.iter().all(|owner| *owner == 0)
}

/// Whether an object can own its bytes: it lies in the memory, and no byte of it has an owner.
fn can_stand(owners: &[u32], object: Object) -> bool
    requires { length owners.now ≡ MEMORY_BYTES }
    ensures { IsTrue result ↔
        (LiesInMemory object × ((at : ℕ) → HasByte at object → owner_at owners.now at ≡ 0)) }
{
    if !object.lies_in_memory() {
        return false;
    }
    let (from, to) = object.cells();
    are_free(&owners[from..to])
}

/// Gives each byte of an object to an owner.
fn give(owners: &mut [u32], object: Object, owner: u32)
    requires inside { LiesInMemory object }
    requires cells { length owners.old ≡ MEMORY_BYTES }
    ensures given { (at : ℕ) → HasByte at object → owner_at owners.new at ≡ owner }
    ensures kept { (at : ℕ) → ¬ (HasByte at object)
        → owner_at owners.new at ≡ owner_at owners.old at }
{
    let (from, to) = object.cells();
    owners[from..to].fill(owner);
}

impl Live {
    /// No object.
    pub fn new(alloc: Global) -> Result<Live, OutOfMemory>
        ensures { IfOk result (λ live. live ≡ []) }
    {
        Ok(Live {
            objects: Vec::new(alloc),
            owners: no_owners(alloc, MEMORY_BYTES)?,
            standing: 0,
        })
    }

    /// Opens an object.
    pub fn open(&mut self, object: Object) -> Result<(), OutOfMemory>
        ensures opened { OnOk result (self.new ≡ self.old ++ object ∷ []) }
        ensures refused { OnErr result (self.new ≡ self.old) }
    {
        let before = self.objects.len();
        self.objects.push(object)?;
        if self.standing == before
            && before < u32::MAX as usize
            && can_stand(&self.owners, object)
        {
            self.standing = before + 1;
            give(&mut self.owners, object, self.standing as u32);
        }
        Ok(())
    }

    /// Ends the newest object.
    fn close_last(&mut self)
        ensures { self.new ≡ take (length self.old - 1) self.old }
    {
        if let Some(object) = self.objects.pop() {
            let left = self.objects.len();
            if left < self.standing {
                self.standing = left;
                give(&mut self.owners, object, 0);
            }
        }
    }

    /// Ends the newest objects, down to so many, in the time that their bytes take.
    pub fn close(&mut self, count: usize)
        ensures { self.new ≡ take count self.old }
    {
        while count < self.len() {
            self.close_last();
        }
    }

    /// How many objects live.
    pub fn len(&self) -> usize
        ensures { result ≡ length self.now }
    {
        self.objects.len()
    }

    /// Whether an object holds so many bytes from an address on. Where they are none, the object
    /// may end there, and then owns the byte before.
    pub fn holds(&self, at: u64, size: u64) -> bool
        ensures { result ≡ list_any (holds at size) self.now }
    {
        owner_holds(&self.objects, owner(&self.owners, at), at, size)
            || owner_holds(
                &self.objects,
                owner(&self.owners, at.saturating_sub(1)),
                at,
                size,
            )
            || any_holds(&self.objects[self.standing..], at, size)
    }

    /// Whether two addresses are along one object, its end included.
    pub fn along(&self, y: u64, z: i64) -> bool
        ensures { result ≡ are_along (pos y) z self.now }
    {
        match u64::try_from(z) {
            Ok(z) => self.holds(y.min(z), y.abs_diff(z)),
            Err(_) => false,
        }
    }
}
