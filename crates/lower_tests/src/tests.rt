//! One module a subject.

mod labels;
