// Numbers narrower than a word, the first in the highest bits, and an identity in two words.
#![tactic(auto)]

ghost use Rattle.std.specs.Prelude.{◌≡◌, ◌%◌, ◌^◌, take, drop};
ghost use Rattle.bits.specs.Fields.{field_of, number_of};
ghost use Rattle.store_words.specs.Narrow.{upper as upper_of, lower as lower_of, pair as pair_of, quad as quad_of};

use identity::Identity;

// Each is bits::field at one place, under a name and with a narrow result: one function for all would be bits::field again.
pub fn upper(x: u64) -> u32
    ensures { result ≡ upper_of x }
{
    bits::field(x, 32, 32) as u32
}

pub fn lower(x: u64) -> u32
    ensures { result ≡ lower_of x }
{
    bits::field(x, 0, 32) as u32
}

pub fn quarter(x: u64, shift: u32) -> u16
    ensures { result ≡ field_of x shift 16 }
{
    bits::field(x, shift, 16) as u16
}

// The highest bit, and the 31 behind it.
pub fn top(x: u64) -> u16
    ensures { result ≡ field_of x 63 1 }
{
    bits::field(x, 63, 1) as u16
}

pub fn below_top(x: u64) -> u32
    ensures { result ≡ field_of x 32 31 }
{
    bits::field(x, 32, 31) as u32
}

pub fn pair(a: u32, b: u32) -> u64
    ensures { result ≡ pair_of a b }
{
    let w = bits::push(0, 32, a as u64);
    bits::push(w, 32, b as u64)
}

pub fn quad(a: u16, b: u16, c: u16, d: u16) -> u64
    ensures { result ≡ quad_of a b c d }
{
    let w = bits::push(0, 16, a as u64);
    let w = bits::push(w, 16, b as u64);
    let w = bits::push(w, 16, c as u64);
    bits::push(w, 16, d as u64)
}

// The first and the second eight bytes of an identity.
pub fn halves(id: Identity) -> (u64, u64)
    ensures first { result.0 ≡ number_of (take 8 id.bytes) % 2 ^ 64 }
    ensures second { result.1 ≡ number_of (take 8 (drop 8 id.bytes)) % 2 ^ 64 }
{
    (bits::number(&id.bytes[..8]), bits::number(&id.bytes[8..]))
}
