//! Types that move between threads.

use access_log::{Log, Places};
use page_image::Image;
use rv_step::{Cpu, Guess, Job, Output, Record, State};
use std::sync::Arc;
use std::test::Fail;

/// It takes only a type whose values can move to another thread.
fn moves<T: Send>() {}

/// It takes only a type whose values several threads can read.
fn is_shared<T: Sync>() {}

#[test]
fn what_workers_hand_on_moves_between_threads() -> Result<(), Fail> {
    moves::<Cpu>();
    moves::<Image>();
    moves::<Log>();
    moves::<Places>();
    moves::<Output>();
    moves::<State>();
    moves::<Guess>();
    moves::<Record>();
    moves::<Arc<Job>>();
    is_shared::<Job>();
    Ok(())
}
