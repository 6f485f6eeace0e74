// A line read: the header, or the record that it is written with.
#![tactic(auto)]

ghost use Rattle.std.specs.Prelude.{◌≡◌};
ghost use Rattle.entry.specs.Valid.{Decides};
ghost use Rattle.csv_field.specs.Places.{texts_of};
ghost use Rattle.csv_words.specs.Words.{columns};
ghost use Rattle.csv_line.specs.Reading.{TellsHeader, JudgesLine};

use csv_entry::Reason;
use csv_field::Line;
use entry::Entry;

fn are_columns(texts: &[&[u8]; 12]) -> bool
    ensures { Decides result (texts_of texts.now ≡ columns) }
{
    for (j, text) in texts.iter().enumerate() {
        if !csv_words::is_word(text, csv_words::COLUMNS + j) {
            return false;
        }
    }
    true
}

// Whether the line is the header.
pub fn is_header(l: Line) -> bool
    ensures { TellsHeader l.entry result }
{
    match l.notes {
        Some(n) => n.count == 12 && are_columns(&n.texts),
        None => false,
    }
}

// What the line comes to.
pub fn judge_line(l: Line) -> Result<Entry, Reason>
    ensures { JudgesLine l.entry result }
{
    let n = l.notes.ok_or(Reason::Quoting)?;
    if n.count != 12 {
        return Err(Reason::Count);
    }
    csv_entry::judge::judge(&n.texts)
}
