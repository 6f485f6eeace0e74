// The site in words that the host lends: each part read and replaced in place.
#![tactic(auto)]

pub mod head; // head.rt: what stands once, and what every call asks
pub mod items; // items.rt: an element of a list by any number
pub mod parts; // parts.rt: each part of the site
pub mod phases; // phases.rt: a link's phase, times, version and what has happened

pub const WORDS: usize = 657;

pub const POOL_WORDS: usize = 520;
