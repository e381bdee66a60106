//! The words of the command line, read by hand: each list of them is one request, or none.
#![tactic(auto)]

mod command;
mod laws;
mod limits;
mod number;
mod option_name;
mod options;
mod read;
mod request;

pub use laws::{one_request, requests_are_bounded, words_in_numbers};
pub use limits::{
    NUMBER_DIGITS, REGIONS_LIMIT, USUAL_BUDGET, USUAL_GROUP, USUAL_WORKERS, WORKERS_LIMIT,
};
pub use read::read_words;
pub use request::{Chosen, PlainRequest, RaceRequest, Request, WordFault};
