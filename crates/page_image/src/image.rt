//! Images.

ghost use Rattle.std.specs.Prelude.{◌≡◌, ◌≤◌, ◌<◌, ◌-◌, ◌++◌, ℕ, length, replicate, slice_index, true, false, IfOk, OnOk, OnErr, IsOk};
ghost use Rattle.bop_bits.specs.declared.map.TheConstants.{MEMORY_BYTES, PAGES};
ghost use Rattle.bop_bits.specs.MemoryNumbers.{number_at, with_number, Fits};
ghost use Rattle.bop_bits.specs.Pages.{page_at};
ghost use Rattle.page_image.specs.PutBytes.{byte_put};

use bop_bits::{ByteMask, DATA_FROM, MEMORY_BYTES, PAGE_BYTES};
use bop_ends::OutOfMemory;
use std::alloc::Global;
use std::marker::Model;

/// The bytes of data and stack.
#[derive(Drop)]
pub struct Image {
    bytes: Vec<u8>,
    owned: bool,
}

impl Model for Image {
    ghost use Rattle.std.specs.Prelude.{◌≡◌, length};
    ghost use Rattle.bop_bits.specs.declared.map.TheConstants.{MEMORY_BYTES};
    ghost use Rattle.page_image.specs.OwnedBytes.{OwnedBytes, coded_bytes};

    ghost Value = { OwnedBytes };

    ghost coded = { coded_bytes };

    ghost view = { λ a. record { bytes = a.bytes.items; owned = a.owned } };

    ghost invariant = { λ a. length a.bytes.items ≡ MEMORY_BYTES };
}

impl Image {
    /// An owned image of these bytes, and then zeros.
    pub fn open(alloc: Global, first: &[u8]) -> Result<Image, OutOfMemory>
        requires { length first.now ≤ MEMORY_BYTES }
        ensures { IfOk result (λ image. image ≡ record {
          bytes = first.now ++ replicate (MEMORY_BYTES - length first.now) 0;
          owned = true;
        }) }
    {
        let Ok(mut bytes) = Vec::from_slice(alloc, first) else {
            return Err(OutOfMemory);
        };
        match bytes.resize(MEMORY_BYTES, 0) {
            Ok(()) => Ok(Image { bytes, owned: true }),
            Err(_) => Err(OutOfMemory),
        }
    }

    /// The number of `size` bytes at an address.
    pub fn load(&self, at: u32, size: u32) -> u32
        requires { Fits at size }
        ensures { result ≡ number_at self.now.bytes at size }
    {
        load_bytes(self.bytes.as_slice(), at, size)
    }

    /// Puts the lowest `size` bytes of a value at an address. An owned image takes no memory.
    pub fn store(&mut self, at: u32, size: u32, value: u32) -> Result<(), OutOfMemory>
        requires { Fits at size }
        ensures stored { OnOk result
            (self.new ≡ record self.old { bytes = with_number self.old.bytes at size value }) }
        ensures unchanged { OnErr result (self.new ≡ self.old) }
        ensures owned { self.old.owned ≡ true → IsOk result }
    {
        store_bytes(self.bytes.as_mut_slice(), at, size, value);
        Ok(())
    }

    /// An equal image, which isn't owned. What is stored to one of the two later doesn't change
    /// the other.
    pub fn fork(&mut self) -> Result<Image, OutOfMemory>
        ensures forked { IfOk result (λ image. image ≡ record self.old { owned = false }) }
        ensures kept { self.new ≡ self.old }
    {
        let bytes = self.bytes.clone()?;
        Ok(Image {
            bytes,
            owned: false,
        })
    }

    /// The bytes of a page.
    pub fn page(&self, n: u32) -> &[u8; 4096]
        requires { n < PAGES }
        ensures { result.now ≡ page_at self.now.bytes n }
    {
        let from = (n * PAGE_BYTES) as usize;
        match self.bytes[from..].split_first_chunk() {
            Some((page, _)) => page,
            None => unreachable!(),
        }
    }

    /// Puts some bytes of another page at their places in a page. It takes no memory.
    pub fn put_bytes(&mut self, n: u32, from: &[u8; 4096], which: &ByteMask)
        requires page { n < PAGES }
        requires owned { self.old.owned ≡ true }
        ensures put { (i : ℕ) → slice_index self.new.bytes i
            ≡ byte_put self.old.bytes n from.now which.now.words i }
        ensures whole { length self.new.bytes ≡ length self.old.bytes }
        ensures kept { self.new.owned ≡ self.old.owned }
    {
        put_page_bytes(self.bytes.as_mut_slice(), n, from, which);
    }

    /// Whether stores take no memory.
    pub fn is_owned(&self) -> bool
        ensures { result ≡ self.now.owned }
    {
        self.owned
    }
}

fn load_bytes(bytes: &[u8], at: u32, size: u32) -> u32
    requires fits { Fits at size }
    requires whole { length bytes.now ≡ MEMORY_BYTES }
    ensures { result ≡ number_at bytes.now at size }
{
    let i = (at - DATA_FROM) as usize;
    match size {
        1 => u32::from(bytes[i]),
        2 => u32::from(bytes[i]) + 256 * u32::from(bytes[i + 1]),
        _ => {
            u32::from(bytes[i])
                + 256
                    * (u32::from(bytes[i + 1])
                        + 256 * (u32::from(bytes[i + 2]) + 256 * u32::from(bytes[i + 3])))
        }
    }
}

fn store_bytes(bytes: &mut [u8], at: u32, size: u32, value: u32)
    requires fits { Fits at size }
    requires whole { length bytes.old ≡ MEMORY_BYTES }
    ensures { bytes.new ≡ with_number bytes.old at size value }
{
    let i = (at - DATA_FROM) as usize;
    match size {
        1 => bytes[i] = (value % 256) as u8,
        2 => {
            bytes[i] = (value % 256) as u8;
            bytes[i + 1] = (value / 256 % 256) as u8;
        }
        _ => {
            bytes[i] = (value % 256) as u8;
            bytes[i + 1] = (value / 256 % 256) as u8;
            bytes[i + 2] = (value / 256 / 256 % 256) as u8;
            bytes[i + 3] = (value / 256 / 256 / 256 % 256) as u8;
        }
    }
}

fn put_page_bytes(bytes: &mut [u8], n: u32, from: &[u8; 4096], which: &ByteMask)
    requires page { n < PAGES }
    requires whole { length bytes.old ≡ MEMORY_BYTES }
    ensures put { (i : ℕ) → slice_index bytes.new i
        ≡ byte_put bytes.old n from.now which.now.words i }
    ensures whole { length bytes.new ≡ length bytes.old }
{
    let first = n * PAGE_BYTES;
    for i in 0..PAGE_BYTES {
        if which.has(i) {
            bytes[(first + i) as usize] = from[i as usize];
        }
    }
}
