// The record that twelve texts may be the fields of. A text that says nothing of the kind still gives a number; what is guessed is written and compared.
ghost use Rattle.std.specs.Prelude.{◌≡◌, [], ◌-◌, ◌^◌, ◌≤◌, ◌<◌, length, get_or};
ghost use Rattle.number.specs.Reading.{says};
ghost use Rattle.csv_field.specs.Places.{texts_of};
ghost use Rattle.csv_entry.specs.Guess.{number_in, signed_in, is_one, first_of, kind_in, kind_named, flags_in, value_in, guess_of};

use entry::Entry;

fn digit_value(b: u8) -> u64
    ensures { (result ≡ b - 48) × (result < 208) }
{
    if b < 48 { 0 } else { (b - 48) as u64 }
}

fn said(f: &[u8]) -> u64
    requires { length f.now ≤ 15 }
    ensures { result ≡ says 0 f.now }
{
    let mut n = 0;
    for b in f {
        n = n * 10 + digit_value(*b);
    }
    n
}

fn number(f: &[u8]) -> u64
    ensures { result ≡ number_in f.now }
{
    if f.len() <= 15 {
        return said(f);
    }
    0
}

fn signed(f: &[u8]) -> u64
    ensures { result ≡ signed_in f.now }
{
    if f.is_empty() {
        return 0;
    }
    if f[0] == b'-' {
        return 0x1_0000_0000u64.saturating_sub(number(&f[1..]));
    }
    number(f)
}

fn is_one(f: &[u8]) -> bool
    ensures { result ≡ is_one f.now }
{
    check::same(f, b"1")
}

// The first of three words that f is, and 3 for none.
fn first_of(f: &[u8], w: usize) -> u16
    requires { w ≤ 3 }
    ensures { result ≡ first_of w f.now }
{
    if csv_words::is_word(f, w) {
        return 0;
    }
    if csv_words::is_word(f, w + 1) {
        return 1;
    }
    if csv_words::is_word(f, w + 2) {
        return 2;
    }
    3
}

// The kind that the second text names.
pub fn kind(texts: &[&[u8]; 12]) -> Option<u16>
    ensures { result ≡ kind_named (get_or (texts_of texts.now) 1 []) }
{
    let k = first_of(texts[1], 0);
    if k < 3 { Some(k) } else { None }
}

fn flags(texts: &[&[u8]; 12], k: u16) -> u16
    ensures { result ≡ flags_in k (texts_of texts.now) }
{
    if k == entry::ALARM {
        let event = first_of(texts[3], csv_words::EVENTS);
        return entry::flags::of_alarm(event, is_one(texts[4]), is_one(texts[5]), is_one(texts[6]));
    }
    if k == entry::STATUS {
        return entry::flags::of_status(is_one(texts[7]), is_one(texts[8]));
    }
    0
}

fn value(texts: &[&[u8]; 12], k: u16) -> u32
    ensures { result ≡ value_in k (texts_of texts.now) }
{
    if k == entry::ALARM {
        return 0;
    }
    u32::try_from(signed(texts[10])).unwrap_or(0)
}

pub fn guess(texts: &[&[u8]; 12], k: u16) -> Entry
    ensures { result ≡ guess_of k (texts_of texts.now) }
{
    Entry {
        time: number(texts[9]),
        value: value(texts, k),
        sequence: u32::try_from(number(texts[11])).unwrap_or(0),
        link: u16::try_from(number(texts[0])).unwrap_or(0),
        kind: k,
        item: u16::try_from(number(texts[2])).unwrap_or(0),
        flags: flags(texts, k),
    }
}
