//! The words of the command line.

use bop_top::Status;
use std::env::{self, FillError};
use std::io::ErrorKind;
use std::rt::Env;

/// The environment without the program's name, which is the first of its words.
#[derive(Drop)]
struct Nameless<'a, R: Env> {
    rt: &'a R,
}

impl<R: Env> Env for Nameless<'_, R> {
    fn arg(&self, i: usize, buf: &mut [u8]) -> Result<usize, FillError> {
        match i.checked_add(1) {
            Some(behind) => self.rt.arg(behind, buf),
            None => Err(FillError::NotPresent),
        }
    }

    fn var(&self, name: &str, buf: &mut [u8]) -> Result<usize, FillError> {
        self.rt.var(name, buf)
    }

    fn var_at(&self, i: usize, buf: &mut [u8]) -> Result<usize, FillError> {
        self.rt.var_at(i, buf)
    }
}

/// The words behind the program's name. Words that are no text ask for nothing that `bop` does.
pub fn words_of<R: Env + AllocGlobal>(rt: &R) -> Result<Vec<String>, Status> {
    let alloc = rt.alloc();
    match env::args(&(Nameless { rt }, alloc)) {
        Ok(words) => words.collect(alloc).map_err(|_| Status::OutOfMemory),
        Err(error) if error.kind() == ErrorKind::InvalidData => Err(Status::BadWords),
        Err(_) => Err(Status::OutOfMemory),
    }
}
