//! One module a subject.

mod arithmetic;
mod bits;
mod code;
mod images;
mod jobs;
mod jumps;
mod logs;
mod memory;
mod moves;
mod replays;
mod runs;
mod traps;
