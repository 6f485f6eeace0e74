// A record's fields, each with the comma behind it, and the line's end.
ghost use Rattle.std.specs.Prelude.{[], ◌∷◌, ◌++◌};
ghost use Rattle.output.specs.Put.{Wrote};
ghost use Rattle.number.specs.Decimal.{digits, decimal_of};
ghost use Rattle.number.specs.Signed.{signed_of};
ghost use Rattle.csv_words.specs.Words.{word_of};
ghost use Rattle.csv_entry.specs.Fields.{yes_no, states_of, quality_of, fields_of, comma, crlf, with_commas, pieces_of, alarm_fields, status_fields, aggregated_fields, header_line};

use entry::Entry;

fn put_number(out: &mut [u8], at: usize, n: u64) -> usize
    ensures { Wrote out.old at (digits n ∷ comma ∷ []) out.new result }
{
    let end = number::put_decimal(out, at, n);
    output::put_bytes(out, end, b",")
}

fn put_flag(out: &mut [u8], at: usize, b: bool) -> usize
    ensures { Wrote out.old at (yes_no b ∷ comma ∷ []) out.new result }
{
    if b {
        put_number(out, at, 1)
    } else {
        put_number(out, at, 0)
    }
}

fn put_word(out: &mut [u8], at: usize, i: usize) -> usize
    ensures { Wrote out.old at (word_of i ∷ comma ∷ []) out.new result }
{
    let end = csv_words::put_word(out, at, i);
    output::put_bytes(out, end, b",")
}

// An empty field.
fn put_none(out: &mut [u8], at: usize) -> usize
    ensures { Wrote out.old at ([] ∷ comma ∷ []) out.new result }
{
    output::put2(out, at, b"", b",")
}

fn put_none2(out: &mut [u8], at: usize) -> usize
    ensures { Wrote out.old at ([] ∷ comma ∷ [] ∷ comma ∷ []) out.new result }
{
    let end = put_none(out, at);
    put_none(out, end)
}

fn put_none4(out: &mut [u8], at: usize) -> usize
    ensures { Wrote out.old at ([] ∷ comma ∷ [] ∷ comma ∷ [] ∷ comma ∷ [] ∷ comma ∷ []) out.new result }
{
    let end = put_none2(out, at);
    put_none2(out, end)
}

fn put_start(out: &mut [u8], at: usize, link: u16, kind: usize, item: u16) -> usize
    ensures { Wrote out.old at (digits link ∷ comma ∷ word_of kind ∷ comma ∷ digits item ∷ comma ∷ []) out.new result }
{
    let a = put_number(out, at, link as u64);
    let b = put_word(out, a, kind);
    put_number(out, b, item as u64)
}

fn put_states(out: &mut [u8], at: usize, flags: u16) -> usize
    ensures { Wrote out.old at (with_commas (states_of flags)) out.new result }
{
    let event = csv_words::EVENTS + (entry::flags::event(flags) as usize);
    let a = put_word(out, at, event);
    let b = put_flag(out, a, entry::flags::acknowledged(flags));
    let c = put_flag(out, b, entry::flags::active(flags));
    put_flag(out, c, entry::flags::suspended(flags))
}

fn put_quality(out: &mut [u8], at: usize, flags: u16) -> usize
    ensures { Wrote out.old at (with_commas (quality_of flags)) out.new result }
{
    let a = put_flag(out, at, entry::flags::known(flags));
    put_flag(out, a, entry::flags::old(flags))
}

fn put_value(out: &mut [u8], at: usize, value: u32) -> usize
    ensures { Wrote out.old at (decimal_of (signed_of value) ∷ comma ∷ []) out.new result }
{
    let end = number::put_i32(out, at, number::signed_of(value));
    output::put_bytes(out, end, b",")
}

fn put_last(out: &mut [u8], at: usize, sequence: u32) -> usize
    ensures { Wrote out.old at (digits sequence ∷ crlf ∷ []) out.new result }
{
    let end = number::put_decimal(out, at, sequence as u64);
    output::put_bytes(out, end, b"\r\n")
}

fn put_alarm(out: &mut [u8], at: usize, e: Entry) -> usize
    ensures { Wrote out.old at (pieces_of (alarm_fields e)) out.new result }
{
    let a = put_start(out, at, e.link, 0, e.item);
    let b = put_states(out, a, e.flags);
    let c = put_none2(out, b);
    let d = put_number(out, c, e.time);
    let f = put_none(out, d);
    put_last(out, f, e.sequence)
}

fn put_status(out: &mut [u8], at: usize, e: Entry) -> usize
    ensures { Wrote out.old at (pieces_of (status_fields e)) out.new result }
{
    let a = put_start(out, at, e.link, 1, e.item);
    let b = put_none4(out, a);
    let c = put_quality(out, b, e.flags);
    let d = put_number(out, c, e.time);
    let f = put_value(out, d, e.value);
    put_last(out, f, e.sequence)
}

fn put_aggregated(out: &mut [u8], at: usize, e: Entry) -> usize
    ensures { Wrote out.old at (pieces_of (aggregated_fields e)) out.new result }
{
    let a = put_start(out, at, e.link, 2, e.item);
    let b = put_none4(out, a);
    let c = put_none2(out, b);
    let d = put_number(out, c, e.time);
    let f = put_number(out, d, e.value as u64);
    put_last(out, f, e.sequence)
}

// The record's line.
pub fn put_line(out: &mut [u8], at: usize, e: Entry) -> usize
    ensures { Wrote out.old at (pieces_of (fields_of e)) out.new result }
{
    if e.kind == entry::ALARM {
        return put_alarm(out, at, e);
    }
    if e.kind == entry::STATUS {
        return put_status(out, at, e);
    }
    put_aggregated(out, at, e)
}

pub fn put_header(out: &mut [u8], at: usize) -> usize
    ensures { Wrote out.old at (header_line ∷ []) out.new result }
{
    output::put_bytes(
        out,
        at,
        b"link,kind,item,event,ack,active,suspended,known,old,time,value,sequence\r\n",
    )
}
