// Records of the pool marked, settled and freed in place.
ghost use Rattle.std.specs.Prelude.{◌≡◌, ◌+◌, ◌*◌, ◌<◌, length, get_or};
ghost use Rattle.pool.specs.Places.{no_place};
ghost use Rattle.pool.specs.Pool.{unsent_for, freed_for, unmark_of, clear_of, mark_of, settle_of};
ghost use Rattle.store_words.specs.Words.{Put};
ghost use Rattle.store_site.specs.Rows.{place_in};
ghost use Rattle.store_site.specs.Layout.{places_in, pool_in, pool_words};

use super::places;
use pool::{Spot, Wanted};

// The place's record is not sent where it is one of the owner.
fn unmark_at(w: &mut [u64], k: usize, l: u16)
    requires { (length w.old ≡ pool_words) × (k < 128) }
    ensures { Put place_in 4 w.old w.new (8 + 4 * k) (unsent_for l (get_or (places_in w.old) k no_place)) }
{
    if places::mine(places::place(w, k), l) {
        places::put_mark(w, k, 1);
    }
}

// No record of the owner is marked as sent.
pub fn unmark(w: &mut [u64], l: u16)
    requires { length w.old ≡ pool_words }
    ensures { pool_in w.new ≡ unmark_of (pool_in w.old) l }
{
    for i in 0..128 {
        unmark_at(w, i, l);
    }
}

// The place is free where it holds a record of the owner.
fn free_at(w: &mut [u64], k: usize, l: u16)
    requires { (length w.old ≡ pool_words) × (k < 128) }
    ensures { Put place_in 4 w.old w.new (8 + 4 * k) (freed_for l (get_or (places_in w.old) k no_place)) }
{
    if places::mine(places::place(w, k), l) {
        places::put_place(w, k, pool::FREE);
    }
}

// The owner begins anew; for one above 7 nothing is changed but that none of its records is held.
pub fn clear(w: &mut [u64], l: u16)
    requires { length w.old ≡ pool_words }
    ensures { pool_in w.new ≡ clear_of (pool_in w.old) l }
{
    for i in 0..128 {
        free_at(w, i, l);
    }
    if l < 8 {
        w[l as usize] = 0;
    }
}

// The owner's record of that number is marked as sent.
pub fn mark_sent(w: &mut [u64], l: u16, sequence: u32)
    requires { length w.old ≡ pool_words }
    ensures { pool_in w.new ≡ mark_of (pool_in w.old) l sequence }
{
    if let Spot::At(k, _) = places::first(w, Wanted::Numbered(l, sequence)) {
        places::put_mark(w, k, 2);
    }
}

// The owner's record of that number is settled.
pub fn settle(w: &mut [u64], l: u16, sequence: u32)
    requires { length w.old ≡ pool_words }
    ensures { pool_in w.new ≡ settle_of (pool_in w.old) l sequence }
{
    if let Spot::At(k, _) = places::first(w, Wanted::Numbered(l, sequence)) {
        places::put_place(w, k, pool::FREE);
    }
}
