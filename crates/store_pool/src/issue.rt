// A record issued in place.
ghost use Rattle.std.specs.Prelude.{◌≡◌, ℕ, ◌<◌, length, get_or};
ghost use Rattle.pool.specs.declared.Loser.TheVariants.{Owner};
ghost use Rattle.pool.specs.declared.Wanted.TheVariants.{Free};
ghost use Rattle.pool.specs.Places.{no_place, fits, oldest};
ghost use Rattle.pool.specs.Shares.{fuller, fullest, loser};
ghost use Rattle.pool.specs.Pool.{held_in, free_in, more_of, room_of, issue_of};
ghost use Rattle.store_words.specs.Words.{word};
ghost use Rattle.store_site.specs.Layout.{places_in, pool_in, pool_words};
ghost use Rattle.store_pool.specs.Pools.{Loss, Counts, Counted};

use super::places;
use entry::Entry;
use pool::{Loser, Place, Spot, Wanted};

// The place's record is counted for its owner.
fn tally(w: &[u64], k: usize, held: &mut [u64])
    requires { (length w.now ≡ pool_words) × ((k < 128) × ((length held.old ≡ 8) × ((o : ℕ) → word held.old o < 128))) }
    ensures { Counts (get_or (places_in w.now) k no_place) held.old held.new }
{
    let i = 8 + 4 * k;
    if w[i + 3] == 0 {
        return;
    }
    let o = store_words::quarter(w[i + 2], 48) as usize;
    if 8 <= o {
        return;
    }
    held[o] = held[o] + 1;
}

// How many records each owner holds, all counted in one pass.
fn counts(w: &[u64]) -> [u64; 8]
    requires { length w.now ≡ pool_words }
    ensures { Counted (places_in w.now) result }
{
    let mut held = [0u64; 8];
    for i in (0..128).rev() {
        tally(w, i, &mut held);
    }
    held
}

fn fuller_in(held: &[u64], a: u16, b: u16) -> u16
    requires { (length held.now ≡ 8) × ((a < 8) × (b < 8)) }
    ensures { result ≡ fuller (word held.now) a b }
{
    if held[a as usize] < held[b as usize] {
        b
    } else {
        a
    }
}

// The owner that holds most; of several the lowest.
fn fullest_of(w: &[u64]) -> u16
    requires { length w.now ≡ pool_words }
    ensures { result ≡ fullest (held_in (places_in w.now)) 7 }
{
    let held = counts(w);
    let mut m: u16 = 0;
    for k in 1..8 {
        m = fuller_in(&held, m, k);
    }
    m
}

// Whose oldest record is lost when one is issued for the owner, the oldest free place being known.
fn loser_for(w: &[u64], l: u16, free: Spot) -> Loser
    requires { (length w.now ≡ pool_words) × (free ≡ oldest (fits Free) (places_in w.now)) }
    ensures { result ≡ loser 8 (held_in (places_in w.now)) (free_in (places_in w.now)) l }
{
    let held = places::holds(w, l);
    if 64 <= held {
        return Loser::Owner(l);
    }
    match free {
        Spot::At(_, _) => Loser::Nobody,
        Spot::Nowhere if held < 16 => Loser::Owner(fullest_of(w)),
        Spot::Nowhere => Loser::Owner(l),
    }
}

// The place that a new record takes, the oldest free place being known.
fn room(w: &[u64], who: Loser, free: Spot) -> Spot
    requires { (length w.now ≡ pool_words) × (free ≡ oldest (fits Free) (places_in w.now)) }
    ensures { result ≡ room_of (places_in w.now) who }
{
    match who {
        Loser::Nobody => free,
        Loser::Owner(m) => places::first(w, Wanted::Of(m)),
    }
}

// One more; a count that cannot grow stays.
pub fn more(k: u64) -> u64
    ensures { result ≡ more_of k }
{
    k.saturating_add(1)
}

fn lose_of(w: &mut [u64], m: u16)
    requires { length w.old ≡ pool_words }
    ensures { Loss w.old w.new (Owner m) }
{
    if 8 <= m {
        return;
    }
    let i = m as usize;
    w[i] = more(w[i]);
}

fn lose(w: &mut [u64], who: Loser)
    requires { length w.old ≡ pool_words }
    ensures { Loss w.old w.new who }
{
    match who {
        Loser::Nobody => {}
        Loser::Owner(m) => lose_of(w, m),
    }
}

// A record is issued for its owner; for one above 7 nothing is.
pub fn issue(w: &mut [u64], e: Entry)
    requires { length w.old ≡ pool_words }
    ensures { pool_in w.new ≡ issue_of 8 (pool_in w.old) e }
{
    if 8 <= e.link {
        return;
    }
    let free = places::free(w);
    let who = loser_for(w, e.link, free);
    if let Spot::At(i, _) = room(w, who, free) {
        places::put_place(w, i, Place { entry: e, mark: 1 });
        lose(w, who);
    }
}
