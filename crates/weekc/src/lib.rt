// What C and Rust call for the weekly report of a captured stream. All memory is lent; each call answers a number, 0 where it is done.
#![tactic(auto)]

ghost use Rattle.std.specs.Prelude.{◌≡◌, leb};
ghost use Rattle.basis.specs.Pick.{pick};
ghost use Rattle.weekc.specs.Calls.{Begins, Feeds, Tells};

// How many words are lent for the tally.
const WORDS: usize = 5027;

// How many bytes are lent for the packet that has begun.
const HELD: usize = 4096;

// The number, and how many bytes the packet has that has begun; above 4,096 it is too long to be looked at.
#[repr(C)]
#[derive(Clone, Copy)]
pub struct Fed {
    pub number: u32,
    pub used: u32,
}

// How many bytes were written, and the number.
#[repr(C)]
#[derive(Clone, Copy)]
pub struct Told {
    pub written: u64,
    pub number: u64,
}

fn refused(used: u32) -> Fed
    ensures { result ≡ record { number = 1; used = used } }
{
    Fed { number: 1, used }
}

fn room(written: usize, length: usize) -> u64
    ensures { result ≡ pick (leb written length) 0 2 }
{
    if written <= length { 0 } else { 2 }
}

// A stream begins: nothing is counted.
pub fn rsmp_week_begin(w: &mut [u64]) -> u32
    ensures { Begins w.old w.new result }
{
    if w.len() != WORDS {
        return 1;
    }
    week_tally::begin(w);
    0
}

// A piece of the stream. `used` is 0 at its beginning, and then what the call before answered.
pub fn rsmp_week_feed(w: &mut [u64], held: &mut [u8], used: u32, piece: &[u8]) -> Fed
    ensures { Feeds w.old held.old used piece.now w.new held.new result }
{
    if w.len() != WORDS {
        return refused(used);
    }
    if held.len() != HELD {
        return refused(used);
    }
    Fed {
        number: 0,
        used: week_stream::feed(w, held, used, piece),
    }
}

// The report of what was fed so far.
pub fn rsmp_week_report(w: &[u64], out: &mut [u8]) -> Told
    ensures { Tells w.now out.old out.new result }
{
    if w.len() != WORDS {
        return Told {
            written: 0,
            number: 1,
        };
    }
    let most = out.len();
    let n = week_text::report(w, out);
    Told {
        written: n as u64,
        number: room(n, most),
    }
}
