//! One module a subject.

mod map;
mod mem_shelf;
mod mem_sink;
mod mem_source;
mod real_shelf;
mod real_sink;
mod real_source;
mod words;
