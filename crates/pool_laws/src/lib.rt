// What holds of the pool after every list of acts, and of several records issued in one call, under a site's next sequence numbers.
#![tactic(auto)]

use pool::Pool;

// The pool and the next number after the records so far; whether one of them took a number past 2147483647 (number 10). Definitions speak of it; no
// function takes or gives one.
#[derive(Clone, Copy)]
pub struct Batch {
    pub pool: Pool,
    pub next: u64,
    pub spent: bool,
}
