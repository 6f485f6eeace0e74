// What a link awaits: sixteen places of four words.
ghost use Rattle.std.specs.Prelude.{◌≡◌, ◌+◌, ◌≤◌, leb, length};
ghost use Rattle.bits.specs.Fields.{bytes_of};
ghost use Rattle.awaited.specs.Slot.{free_slot, is_free};
ghost use Rattle.awaited.specs.Awaited.{find_of, is_awaited, how_many_of};
ghost use Rattle.store_words.specs.Words.{word, Put};
ghost use Rattle.store_words.specs.Narrow.{identity_from};
ghost use Rattle.store_link.specs.Rows.{slot_with, eight_in, id_in, slot_in, answers_to, IdsIn, awaited_in};

use awaited::{Awaited, Slot};
use identity::Identity;

// The identity of sixteen bytes from a place on.
fn id_at(b: &[u8], at: usize) -> Identity
    requires { at + 16 ≤ length b.now }
    ensures { result ≡ id_in b.now at }
{
    let m = at + 8;
    Identity {
        bytes: [
            b[at],
            b[at + 1],
            b[at + 2],
            b[at + 3],
            b[at + 4],
            b[at + 5],
            b[at + 6],
            b[at + 7],
            b[m],
            b[m + 1],
            b[m + 2],
            b[m + 3],
            b[m + 4],
            b[m + 5],
            b[m + 6],
            b[m + 7],
        ],
    }
}

// The place at i of w, its identity at `at` of b.
fn slot_at(w: &[u64], i: usize, b: &[u8], at: usize) -> Slot
    requires { (i + 4 ≤ length w.now) × (at + 16 ≤ length b.now) }
    ensures { result ≡ slot_with w.now i (id_in b.now at) }
{
    let time = w[i];
    let numbers = w[i + 1];
    let id = id_at(b, at);
    Slot {
        time,
        sequence: store_words::upper(numbers),
        purpose: store_words::lower(numbers),
        id,
    }
}

pub fn put_slot(w: &mut [u64], i: usize, x: Slot)
    requires { i + 4 ≤ length w.old }
    ensures { Put slot_in 4 w.old w.new i x }
{
    let id = x.id;
    let numbers = store_words::pair(x.sequence, x.purpose);
    let (a, b) = store_words::halves(id);
    w[i] = x.time;
    w[i + 1] = numbers;
    w[i + 2] = a;
    w[i + 3] = b;
}

// The bytes of a word, from a place on.
fn put_eight(b: &mut [u8], at: usize, x: u64)
    requires { at + 8 ≤ length b.old }
    ensures { Put eight_in 8 b.old b.new at (bytes_of 8 x) }
{
    b[at] = bits::byte(x, 56);
    b[at + 1] = bits::byte(x, 48);
    b[at + 2] = bits::byte(x, 40);
    b[at + 3] = bits::byte(x, 32);
    b[at + 4] = bits::byte(x, 24);
    b[at + 5] = bits::byte(x, 16);
    b[at + 6] = bits::byte(x, 8);
    b[at + 7] = bits::byte(x, 0);
}

// The identity that the two words at i of w are, from a place on.
fn put_id(b: &mut [u8], at: usize, w: &[u64], i: usize)
    requires { (at + 16 ≤ length b.old) × (i + 2 ≤ length w.now) }
    ensures { Put id_in 16 b.old b.new at (identity_from (word w.now i) (word w.now (i + 1))) }
{
    put_eight(b, at, w[i]);
    put_eight(b, at + 8, w[i + 1]);
}

// The identities of the sixteen from i on, one behind the other: the compiler makes whole moves of this, where bytes that are taken out of
// two words into a struct stay single ones.
fn ids_at(w: &[u64], i: usize) -> [u8; 256]
    requires { i + 64 ≤ length w.now }
    ensures { IdsIn w.now i result 16 }
{
    let mut b = [0u8; 256];
    for k in 0..16 {
        put_id(&mut b, 16 * k, w, i + 4 * k + 2);
    }
    b
}

fn no_slot() -> Slot
    ensures { result ≡ free_slot }
{
    Slot {
        time: 0,
        sequence: 0,
        purpose: 0,
        id: Identity { bytes: [0u8; 16] },
    }
}

// The sixteen from i on.
pub fn awaited_at(w: &[u64], i: usize) -> Awaited
    requires { i + 64 ≤ length w.now }
    ensures { result ≡ awaited_in w.now i }
{
    let b = ids_at(w, i);
    let mut slots = [no_slot(); 16];
    for k in 0..16 {
        slots[k] = slot_at(w, i + 4 * k, &b, 16 * k);
    }
    Awaited { slots }
}

fn is_free(w: &[u64], i: usize) -> bool
    requires { i + 4 ≤ length w.now }
    ensures { result ≡ is_free (slot_in w.now i) }
{
    store_words::lower(w[i + 1]) == 0
}

// Whether the place at i awaits an answer to the identity of these two words.
fn answers_to(w: &[u64], i: usize, a: u64, b: u64) -> bool
    requires { i + 4 ≤ length w.now }
    ensures { result ≡ answers_to w.now i a b }
{
    !is_free(w, i) && w[i + 2] == a && w[i + 3] == b
}

// Whether one of the sixteen from i on awaits an answer to the identity.
pub fn awaits_at(w: &[u64], i: usize, id: Identity) -> bool
    requires { i + 64 ≤ length w.now }
    ensures { result ≡ is_awaited (find_of (awaited_in w.now i) id) }
{
    let (a, b) = store_words::halves(id);
    for k in 0..16 {
        if answers_to(w, i + 4 * k, a, b) {
            return true;
        }
    }
    false
}

// Whether none of the sixteen from i on is free.
pub fn full_at(w: &[u64], i: usize) -> bool
    requires { i + 64 ≤ length w.now }
    ensures { result ≡ leb 16 (how_many_of (awaited_in w.now i)) }
{
    for k in 0..16 {
        if is_free(w, i + 4 * k) {
            return false;
        }
    }
    true
}

fn put_slots(w: &mut [u64], i: usize, slots: [Slot; 16])
    requires { i + 64 ≤ length w.old }
    ensures { Put awaited_in 64 w.old w.new i (record { slots = slots }) }
{
    for (k, slot) in slots.iter().enumerate() {
        put_slot(w, i + 4 * k, *slot);
    }
}

pub fn put_awaited(w: &mut [u64], i: usize, x: Awaited)
    requires { i + 64 ≤ length w.old }
    ensures { Put awaited_in 64 w.old w.new i x }
{
    put_slots(w, i, x.slots);
}
