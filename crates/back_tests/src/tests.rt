//! One module a subject.

mod accepted;
mod code;
mod meanings;
mod memory;
mod resolved;
