// The words of a line: the kinds, an alarm's events, the columns.
#![tactic(auto)]

ghost use Rattle.std.specs.Prelude.{◌≡◌, [], ◌∷◌};
ghost use Rattle.basis.specs.Lists.{same_bytes};
ghost use Rattle.output.specs.Put.{Wrote};
ghost use Rattle.csv_words.specs.Words.{word_of};

// The first event and the first column; the kinds begin at 0.
pub const EVENTS: usize = 3;

pub const COLUMNS: usize = 6;

const COUNT: usize = 18;

const WORDS: [&[u8]; COUNT] = [
    b"Alarm",
    b"StatusUpdate",
    b"AggregatedStatus",
    b"Issue",
    b"Acknowledge",
    b"Suspend",
    b"link",
    b"kind",
    b"item",
    b"event",
    b"ack",
    b"active",
    b"suspended",
    b"known",
    b"old",
    b"time",
    b"value",
    b"sequence",
];

// Word i; past the last one an empty text.
fn word(i: usize) -> &'static [u8]
    ensures { result.now ≡ word_of i }
{
    if i < COUNT { WORDS[i] } else { b"" }
}

// Writes word i.
pub fn put_word(out: &mut [u8], at: usize, i: usize) -> usize
    ensures { Wrote out.old at (word_of i ∷ []) out.new result }
{
    output::put_bytes(out, at, word(i))
}

// Whether s is word i.
pub fn is_word(s: &[u8], i: usize) -> bool
    ensures { result ≡ same_bytes s.now (word_of i) }
{
    check::same(s, word(i))
}
