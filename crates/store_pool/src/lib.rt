// The pool in words that the host lends: its places searched by index, records issued, marked and settled.
#![tactic(auto)]

pub mod change; // change.rt: records marked and settled
pub mod issue; // issue.rt: a record issued
pub mod places; // places.rt: the places, searched by index
pub mod read; // read.rt: what is read of the pool
