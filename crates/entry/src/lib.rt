// The record: its fields in sixteen bytes and out again.
#![tactic(auto)]

ghost use Rattle.std.specs.Prelude.{◌≡◌, [], ◌∷◌, ℕ, ◌+◌, ◌*◌, ◌/◌, ◌%◌, ◌^◌, ◌≤◌, ◌<◌};
ghost use Rattle.bits.specs.Fields.{field_of, joined, split, number_of};
ghost use Rattle.entry.specs.Layout.{bytes_of, entry_of, widths};
ghost use Rattle.entry.specs.Reading.{Reads};

pub mod flags; // flags.rt: the six flags of an alarm and of a status
pub mod valid; // valid.rt: which records there are

pub const ALARM: u16 = 0;

pub const STATUS: u16 = 1;

pub const AGGREGATED: u16 = 2;

// value is the word of 32 bits, a status's in two's complement.
#[repr(C)]
#[derive(Clone, Copy)]
pub struct Entry {
    pub time: u64,
    pub value: u32,
    pub sequence: u32,
    pub link: u16,
    pub kind: u16,
    pub item: u16,
    pub flags: u16,
}

#[repr(C)]
#[derive(Clone, Copy)]
pub struct Packed {
    pub bytes: [u8; 16],
}

#[derive(Clone, Copy)]
pub enum Unpacked {
    Accepted(Entry),
    Refused(answer::Refusal),
}

// The first 64 bits: of the time all but its last bit.
fn first_word(e: Entry) -> u64
    ensures { result ≡ joined 0 (3 ∷ 2 ∷ 6 ∷ 6 ∷ 47 ∷ []) (e.link ∷ e.kind ∷ e.item ∷ e.flags ∷ e.time / 2 ∷ []) }
{
    let w = bits::push(0, 3, e.link as u64);
    let w = bits::push(w, 2, e.kind as u64);
    let w = bits::push(w, 6, e.item as u64);
    let w = bits::push(w, 6, e.flags as u64);
    bits::push(w, 47, e.time / 2)
}

// The last 64 bits: the time's last bit before the others.
fn last_word(e: Entry) -> u64
    ensures { result ≡ joined 0 (1 ∷ 32 ∷ 31 ∷ []) (e.time ∷ e.value ∷ e.sequence ∷ []) }
{
    let w = bits::push(0, 1, e.time);
    let w = bits::push(w, 32, e.value as u64);
    bits::push(w, 31, e.sequence as u64)
}

// The record's bytes; each field in its width.
pub fn pack(e: Entry) -> Packed
    ensures { result.bytes ≡ bytes_of e }
{
    let h = first_word(e);
    let l = last_word(e);
    Packed {
        bytes: [
            bits::byte(h, 56),
            bits::byte(h, 48),
            bits::byte(h, 40),
            bits::byte(h, 32),
            bits::byte(h, 24),
            bits::byte(h, 16),
            bits::byte(h, 8),
            bits::byte(h, 0),
            bits::byte(l, 56),
            bits::byte(l, 48),
            bits::byte(l, 40),
            bits::byte(l, 32),
            bits::byte(l, 24),
            bits::byte(l, 16),
            bits::byte(l, 8),
            bits::byte(l, 0),
        ],
    }
}

// The time, whose last bit stands in the second word.
fn time_in(h: u64, l: u64) -> u64
    ensures { result ≡ field_of h 0 47 * 2 + field_of l 63 1 }
{
    bits::field(h, 0, 47) * 2 + bits::field(l, 63, 1)
}

// The fields that stand in the two words.
fn fields(h: u64, l: u64) -> Entry
    ensures { result ≡ entry_of (split widths (h * 2 ^ 64 + l)) }
{
    Entry {
        time: time_in(h, l),
        value: bits::field(l, 31, 32) as u32,
        sequence: bits::field(l, 0, 31) as u32,
        link: bits::field(h, 61, 3) as u16,
        kind: bits::field(h, 59, 2) as u16,
        item: bits::field(h, 53, 6) as u16,
        flags: bits::field(h, 47, 6) as u16,
    }
}

// The fields that stand in the bytes, whatever they are.
fn unchecked(p: Packed) -> Entry
    ensures { result ≡ entry_of (split widths (number_of p.bytes)) }
{
    let bytes = p.bytes;
    let h = bits::number(&bytes[0..8]);
    let l = bits::number(&bytes[8..16]);
    fields(h, l)
}

// The record whose bytes these are; no other pattern is accepted.
pub fn unpack(p: Packed) -> Unpacked
    ensures { Reads p.bytes result }
{
    let e = unchecked(p);
    if valid::valid(e) {
        Unpacked::Accepted(e)
    } else {
        Unpacked::Refused(answer::Refusal::NotAccepted)
    }
}
