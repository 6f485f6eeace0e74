// The pool in place: 128 places of four words, searched by index.
ghost use Rattle.std.specs.Prelude.{◌≡◌, ◌+◌, ◌*◌, ◌<◌, length, get_or, set};
ghost use Rattle.basis.specs.Pick.{both};
ghost use Rattle.basis.specs.Lists.{count};
ghost use Rattle.pool.specs.declared.Wanted.TheVariants.{Free};
ghost use Rattle.pool.specs.Places.{no_place, of, fits, lower, higher, oldest, newest};
ghost use Rattle.pool.specs.Pool.{held_in, rank_is};
ghost use Rattle.store_site.specs.Rows.{place_in};
ghost use Rattle.store_words.specs.Words.{Put};
ghost use Rattle.store_site.specs.Layout.{places_in, pool_words};
ghost use Rattle.store_pool.specs.Vacant.{Vacant};

use entry::Entry;
use pool::{Place, Spot, Wanted};

pub fn place(w: &[u64], k: usize) -> Place
    requires { (length w.now ≡ pool_words) × (k < 128) }
    ensures { result ≡ get_or (places_in w.now) k no_place }
{
    let i = 8 + 4 * k;
    let numbers = w[i + 1];
    let narrow = w[i + 2];
    let entry = Entry {
        time: w[i],
        value: store_words::upper(numbers),
        sequence: store_words::lower(numbers),
        link: store_words::quarter(narrow, 48),
        kind: store_words::quarter(narrow, 32),
        item: store_words::quarter(narrow, 16),
        flags: store_words::quarter(narrow, 0),
    };
    Place {
        entry,
        mark: w[i + 3],
    }
}

pub fn put_place(w: &mut [u64], k: usize, x: Place)
    requires { (length w.old ≡ pool_words) × (k < 128) }
    ensures { Put place_in 4 w.old w.new (8 + 4 * k) x }
{
    let i = 8 + 4 * k;
    let e = x.entry;
    let numbers = store_words::pair(e.value, e.sequence);
    let narrow = store_words::quad(e.link, e.kind, e.item, e.flags);
    w[i] = e.time;
    w[i + 1] = numbers;
    w[i + 2] = narrow;
    w[i + 3] = x.mark;
}

// Of a place only the mark.
pub fn put_mark(w: &mut [u64], k: usize, mark: u64)
    requires { (length w.old ≡ pool_words) × (k < 128) }
    ensures { w.new ≡ set w.old (8 + 4 * k + 3) mark }
{
    let i = 8 + 4 * k;
    w[i + 3] = mark;
}

// Whether a place holds a record of the owner.
pub fn mine(x: Place, l: u16) -> bool
    ensures { result ≡ of l x }
{
    0 < x.mark && x.entry.link == l
}

// Whether a place is what is asked for.
fn asked(x: Place, w: Wanted) -> bool
    ensures { result ≡ fits w x }
{
    match w {
        Wanted::Free => x.mark == 0,
        Wanted::Of(l) => mine(x, l),
        Wanted::Unsent(l) => mine(x, l) && x.mark == 1,
        Wanted::Older(l, q) => mine(x, l) && x.entry.sequence < q,
        Wanted::Numbered(l, q) => mine(x, l) && x.entry.sequence == q,
        Wanted::Alarm(l, k) => mine(x, l) && x.entry.kind == 0 && x.entry.item == k,
    }
}

// How many places are what is asked for.
pub fn number(w: &[u64], q: Wanted) -> usize
    requires { length w.now ≡ pool_words }
    ensures { result ≡ count (fits q) (places_in w.now) }
{
    let mut n: usize = 0;
    for i in (0..128).rev() {
        if asked(place(w, i), q) {
            n += 1;
        }
    }
    n
}

// Whether place k holds a record of the owner; of a free place only the mark is read.
fn is_mine(w: &[u64], k: usize, l: u16) -> bool
    requires { (length w.now ≡ pool_words) × (k < 128) }
    ensures { result ≡ of l (get_or (places_in w.now) k no_place) }
{
    let i = 8 + 4 * k;
    w[i + 3] != 0 && store_words::quarter(w[i + 2], 48) == l
}

// How many records of the owner are held.
pub fn holds(w: &[u64], l: u16) -> usize
    requires { length w.now ≡ pool_words }
    ensures { result ≡ held_in (places_in w.now) l }
{
    let mut n: usize = 0;
    for i in (0..128).rev() {
        if is_mine(w, i, l) {
            n += 1;
        }
    }
    n
}

// Two functions, as the definitions lower and higher are two.
// Of the place i, where x stands, and what was found behind it: the older record, the first where they are of one number.
fn nearer(i: usize, x: Place, b: Spot) -> Spot
    ensures { result ≡ lower i x b }
{
    match b {
        Spot::At(_, y) if y.entry.sequence < x.entry.sequence => b,
        _ => Spot::At(i, x),
    }
}

// The newer record.
fn later(i: usize, x: Place, b: Spot) -> Spot
    ensures { result ≡ higher i x b }
{
    match b {
        Spot::At(_, y) if x.entry.sequence <= y.entry.sequence => b,
        _ => Spot::At(i, x),
    }
}

// Where the oldest record stands, of the places that are what is asked for.
pub fn first(w: &[u64], q: Wanted) -> Spot
    requires { length w.now ≡ pool_words }
    ensures { result ≡ oldest (fits q) (places_in w.now) }
{
    let mut best = Spot::Nowhere;
    for i in (0..128).rev() {
        let x = place(w, i);
        if asked(x, q) {
            best = nearer(i, x, best);
        }
    }
    best
}

// Where the newest record stands, of the places that are what is asked for.
pub fn last(w: &[u64], q: Wanted) -> Spot
    requires { length w.now ≡ pool_words }
    ensures { result ≡ newest (fits q) (places_in w.now) }
{
    let mut best = Spot::Nowhere;
    for i in (0..128).rev() {
        let x = place(w, i);
        if asked(x, q) {
            best = later(i, x, best);
        }
    }
    best
}

// Whether a place is free.
fn is_free(w: &[u64], k: usize) -> bool
    requires { (length w.now ≡ pool_words) × (k < 128) }
    ensures { result ≡ fits Free (get_or (places_in w.now) k no_place) }
{
    let i = 8 + 4 * k;
    w[i + 3] == 0
}

// The lowest free place.
fn vacant(w: &[u64]) -> Spot
    requires { length w.now ≡ pool_words }
    ensures { Vacant (places_in w.now) result }
{
    for i in 0..128 {
        if is_free(w, i) {
            return Spot::At(i, place(w, i));
        }
    }
    Spot::Nowhere
}

// What `first` answers for a free place. A place that a record left is all zero, and no number is below 0: the lowest free place.
pub fn free(w: &[u64]) -> Spot
    requires { length w.now ≡ pool_words }
    ensures { result ≡ oldest (fits Free) (places_in w.now) }
{
    let lowest = vacant(w);
    match lowest {
        Spot::At(_, x) if 0 < x.entry.sequence => first(w, Wanted::Free),
        _ => lowest,
    }
}

fn has_rank(w: &[u64], l: u16, rank: usize, x: Place) -> bool
    requires { length w.now ≡ pool_words }
    ensures { result ≡ rank_is (places_in w.now) l rank x }
{
    mine(x, l) && number(w, Wanted::Older(l, x.entry.sequence)) == rank
}

// Where the record of the owner stands than which so many of its records are older.
pub fn ranked(w: &[u64], l: u16, rank: usize) -> Spot
    requires { length w.now ≡ pool_words }
    ensures { result ≡ oldest (rank_is (places_in w.now) l rank) (places_in w.now) }
{
    let mut best = Spot::Nowhere;
    for i in (0..128).rev() {
        let x = place(w, i);
        if has_rank(w, l, rank, x) {
            best = nearer(i, x, best);
        }
    }
    best
}
