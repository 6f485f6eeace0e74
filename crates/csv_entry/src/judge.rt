// Twelve texts held against the record that they may be the fields of.
ghost use Rattle.std.specs.Prelude.{◌≡◌, ℕ, ◌<◌};
ghost use Rattle.entry.specs.Valid.{Valid, Decides};
ghost use Rattle.csv_field.specs.Places.{texts_of};
ghost use Rattle.csv_entry.specs.Fields.{fields_of};
ghost use Rattle.csv_entry.specs.Judged.{has_column, present, Judges, Holds};

use super::Reason;
use entry::Entry;

const MARKS: [u8; 36] = *b"111111100101111000011111111000000111";

fn has_column(k: u16, j: usize) -> bool
    requires { (k < 3) × (j < 12) }
    ensures { result ≡ has_column k j }
{
    let i = 12 * (k as usize) + j;
    MARKS[i] == b'1'
}

// Whether the kind has each text that is not empty, and lacks each that is.
fn is_present(k: u16, texts: &[&[u8]; 12]) -> bool
    requires { k < 3 }
    ensures { result ≡ present k (texts_of texts.now) }
{
    for (j, text) in texts.iter().enumerate() {
        if text.is_empty() == has_column(k, j) {
            return false;
        }
    }
    true
}

fn agree(texts: &[&[u8]; 12], others: &[&[u8]; 12]) -> bool
    ensures { Decides result (texts_of texts.now ≡ texts_of others.now) }
{
    for j in 0..12 {
        if !check::same(texts[j], others[j]) {
            return false;
        }
    }
    true
}

// Whether the texts are the record's fields: it is written, and taken apart again.
fn is_line_of(texts: &[&[u8]; 12], e: Entry) -> bool
    requires { Valid e }
    ensures { Decides result (fields_of e ≡ texts_of texts.now) }
{
    let mut written = [0u8; 66];
    let end = super::write::put_line(&mut written, 0, e);
    let line = csv_field::take_line(&written[0..end], 0);
    match line.notes {
        Some(n) => agree(texts, &n.texts),
        None => false,
    }
}

fn contents(texts: &[&[u8]; 12], k: u16) -> Result<Entry, Reason>
    requires { k < 3 }
    ensures { Holds k (texts_of texts.now) result }
{
    let e = super::guess::guess(texts, k);
    if entry::valid::valid(e) && is_line_of(texts, e) {
        return Ok(e);
    }
    Err(Reason::Contents)
}

// What twelve texts come to.
pub fn judge(texts: &[&[u8]; 12]) -> Result<Entry, Reason>
    ensures { Judges (texts_of texts.now) result }
{
    let k = super::guess::kind(texts).ok_or(Reason::Kind)?;
    if !is_present(k, texts) {
        return Err(Reason::Presence);
    }
    contents(texts, k)
}
