// Fields shifted and masked, most significant first: each bit operator in one function over a width.
#![tactic(auto)]

ghost use Rattle.std.specs.Prelude.{◌≡◌, ℕ, ◌+◌, ◌*◌, ◌/◌, ◌%◌, ◌^◌, ◌≤◌, ◌<◌};
ghost use Rattle.bits.specs.Fields.{pushed, field_of, number_of};

// The width low bits of word.
pub fn low(word: u64, width: u32) -> u64
    ensures { result ≡ word % 2 ^ width }
{
    if width < 64 {
        word & ((1 << width) - 1)
    } else {
        word
    }
}

// word without its shift low bits.
pub fn high(word: u64, shift: u32) -> u64
    ensures { result ≡ word / 2 ^ shift }
{
    if shift < 64 { word >> shift } else { 0 }
}

// The last 64 bits of word with the width low bits of v behind it.
pub fn push(word: u64, width: u32, v: u64) -> u64
    ensures { result ≡ pushed word width v % 2 ^ 64 }
{
    let behind = low(v, width);
    if width < 64 {
        (word << width) | behind
    } else {
        behind
    }
}

// The width bits of word that have shift bits behind them.
pub fn field(word: u64, shift: u32, width: u32) -> u64
    ensures { result ≡ field_of word shift width }
{
    low(high(word, shift), width)
}

// The byte of word that has shift bits behind it.
pub fn byte(word: u64, shift: u32) -> u8
    ensures { result ≡ field_of word shift 8 }
{
    low(high(word, shift), 8) as u8
}

// The last 64 bits of the number that the bytes say.
pub fn number(s: &[u8]) -> u64
    ensures { result ≡ number_of s.now % 2 ^ 64 }
{
    let mut n = 0;
    for b in s {
        n = push(n, 8, u64::from(*b));
    }
    n
}
