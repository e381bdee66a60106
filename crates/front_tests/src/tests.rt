//! One module a subject.

mod checks;
mod expressions;
mod items;
mod layouts;
mod notation;
mod read;
mod tokens;
mod trees;
mod types;
