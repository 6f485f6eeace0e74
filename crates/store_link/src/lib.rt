// A link in words that the host lends: what it awaits, and the whole.
#![tactic(auto)]

pub mod links; // links.rt: a link
pub mod slots; // slots.rt: what a link awaits
