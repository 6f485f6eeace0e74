// What is read of the pool.
ghost use Rattle.std.specs.Prelude.{◌≡◌, length};
ghost use Rattle.pool.specs.Places.{sought_at};
ghost use Rattle.pool.specs.Pool.{held_of, lost_of, oldest_unsent, newest_alarm, ranked_of};
ghost use Rattle.store_site.specs.Layout.{pool_in, pool_words};

use super::places;
use pool::{Sought, Spot, Wanted};

// How many records of the owner are held.
pub fn held(w: &[u64], l: u16) -> usize
    requires { length w.now ≡ pool_words }
    ensures { result ≡ held_of (pool_in w.now) l }
{
    places::holds(w, l)
}

// How many records the owner lost.
pub fn lost(w: &[u64], l: u16) -> u64
    requires { length w.now ≡ pool_words }
    ensures { result ≡ lost_of (pool_in w.now) l }
{
    if l < 8 { w[l as usize] } else { 0 }
}

// What stands at a spot.
fn look(s: Spot) -> Sought
    ensures { result ≡ sought_at s }
{
    match s {
        Spot::At(_, x) => Sought::Found(x),
        Spot::Nowhere => Sought::Nothing,
    }
}

// The owner's oldest record that is not sent.
pub fn oldest_unsent(w: &[u64], l: u16) -> Sought
    requires { length w.now ≡ pool_words }
    ensures { result ≡ oldest_unsent (pool_in w.now) l }
{
    look(places::first(w, Wanted::Unsent(l)))
}

// The owner's newest record of the alarm.
pub fn newest_alarm(w: &[u64], l: u16, item: u16) -> Sought
    requires { length w.now ≡ pool_words }
    ensures { result ≡ newest_alarm (pool_in w.now) l item }
{
    look(places::last(w, Wanted::Alarm(l, item)))
}

// The owner's record with so many older ones of that owner.
pub fn ranked(w: &[u64], l: u16, rank: usize) -> Sought
    requires { length w.now ≡ pool_words }
    ensures { result ≡ ranked_of (pool_in w.now) l rank }
{
    look(places::ranked(w, l, rank))
}
