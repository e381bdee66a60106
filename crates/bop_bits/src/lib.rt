//! The memory map, the classes of its pages, sets of pages and bytes, and the bits of words.
#![tactic(auto)]

mod bit_set;
mod bits;
mod class;
mod laws;
mod map;

pub use bit_set::{BitSet, ByteMask, PageSet};
pub use bits::{bytes_of, field, put, sext, word_of};
pub use class::{Class, Classes};
pub use laws::map_in_numbers;
pub use map::{
    CODE_FROM, CODE_WORDS, DATA_FROM, MEMORY_BYTES, PAGE_BYTES, PAGES, STACK_FROM, STACK_PAGE,
    STACK_TO,
};
