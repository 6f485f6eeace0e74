// The messages that tell a part of the site, put into a lent output. The site lies in the words w, its table in the bytes t; its pool ps is not told.
#![tactic(auto)]

ghost use Rattle.std.specs.Prelude.{◌≡◌, true, false, List, ℕ, ◌%◌, length};
ghost use Rattle.output.specs.Put.{Wrote};
ghost use Rattle.write_message.specs.Pieces.{pieces};
ghost use Rattle.site.specs.declared.Site.{Site};
ghost use Rattle.site.specs.Parts.{alarm_row_at, status_row_at};
ghost use Rattle.store_site.specs.Layout.{site_of, site_words};
ghost use Rattle.store_table.specs.Layout.{table_of, table_bytes};
ghost use Rattle.send_message.specs.Sending.{state_of, held_state, alarm_told, alarm_message, aggregated_told, aggregated_message, known_value, status_value, held_value, status_told, entry_message};

use alarm::Alarm;
use entry::{Entry, flags};
use identity::Identity;
use status::Status;
use table_item::Item;
use write_message::{AlarmState, Value};

// An alarm's states and last event.
pub fn state_of(a: Alarm, row: Item) -> AlarmState
    ensures { result ≡ state_of a row }
{
    AlarmState {
        time: a.time,
        event: a.event,
        category: row.category,
        priority: row.priority,
        acknowledged: a.acknowledged == 1,
        active: a.active == 1,
        suspended: a.suspended == 1,
    }
}

// The same out of a record.
fn held_state(e: Entry, row: Item) -> AlarmState
    ensures { result ≡ held_state e row }
{
    AlarmState {
        time: e.time,
        event: flags::event(e.flags),
        category: row.category,
        priority: row.priority,
        acknowledged: flags::acknowledged(e.flags),
        active: flags::active(e.flags),
        suspended: flags::suspended(e.flags),
    }
}

fn known_value(old: bool, w: u32) -> Value
    ensures { result ≡ known_value old w }
{
    let n = number::signed_of(w);
    if old { Value::Old(n) } else { Value::Recent(n) }
}

// What is told of a status.
pub fn status_value(x: Status) -> Value
    ensures { result ≡ status_value x }
{
    if x.known == 1 {
        return known_value(false, x.value);
    }
    Value::Unknown
}

// What a record tells of a status.
fn held_value(e: Entry) -> Value
    ensures { result ≡ held_value e }
{
    if flags::known(e.flags) {
        return known_value(flags::old(e.flags), e.value);
    }
    Value::Unknown
}

// What follows that takes no words says it of every site with this table.
fn tell_alarm(
    out: &mut [u8],
    at: usize,
    t: &[u8],
    id: Identity,
    row: Item,
    state: AlarmState,
) -> usize
    requires { length t.now ≡ table_bytes }
    ensures { (s : Site) → s.table ≡ table_of t.now → Wrote out.old at (pieces (alarm_told s id.bytes row state)) out.new result }
{
    let component = store_table::component(t, row.component as usize);
    write_report::alarms::alarm(out, at, id, component, row.code, state)
}

// Alarm k as it is.
pub fn write_alarm(out: &mut [u8], at: usize, w: &[u64], t: &[u8], id: Identity, k: usize) -> usize
    requires { (length w.now ≡ site_words) × (length t.now ≡ table_bytes) }
    ensures { (ps : List ℕ) → Wrote out.old at (pieces (alarm_message (site_of ps w.now (table_of t.now)) id.bytes k)) out.new result }
{
    let row = store_table::alarm_row(t, k);
    let state = state_of(store_site::items::alarm(w, k), row);
    tell_alarm(out, at, t, id, row, state)
}

fn tell_aggregated(
    out: &mut [u8],
    at: usize,
    t: &[u8],
    id: Identity,
    time: u64,
    value: u64,
) -> usize
    requires { length t.now ≡ table_bytes }
    ensures { (s : Site) → s.table ≡ table_of t.now → Wrote out.old at (pieces (aggregated_told s id.bytes time value)) out.new result }
{
    let component = store_table::component(t, 0);
    let byte = bits::low(value, 8) as u8;
    write_report::aggregate::aggregated(out, at, id, component, time, byte)
}

// The aggregated status as it is, with the time of its last change.
pub fn write_aggregated(out: &mut [u8], at: usize, w: &[u64], t: &[u8], id: Identity) -> usize
    requires { (length w.now ≡ site_words) × (length t.now ≡ table_bytes) }
    ensures { (ps : List ℕ) → Wrote out.old at (pieces (aggregated_message (site_of ps w.now (table_of t.now)) id.bytes)) out.new result }
{
    let a = store_site::head::aggregated(w);
    tell_aggregated(out, at, t, id, a.time, a.value)
}

fn tell_status(
    out: &mut [u8],
    at: usize,
    t: &[u8],
    id: Identity,
    row: Item,
    time: u64,
    v: Value,
) -> usize
    requires { length t.now ≡ table_bytes }
    ensures { (s : Site) → s.table ≡ table_of t.now → Wrote out.old at (pieces (status_told s id.bytes row time v)) out.new result }
{
    let component = store_table::component(t, row.component as usize);
    write_report::status::update(out, at, id, component, time, row.code, row.name, v)
}

fn write_held_alarm(out: &mut [u8], at: usize, t: &[u8], id: Identity, e: Entry) -> usize
    requires { length t.now ≡ table_bytes }
    ensures { (s : Site) → s.table ≡ table_of t.now → Wrote out.old at (pieces (alarm_told s id.bytes (alarm_row_at s e.item) (held_state e (alarm_row_at s e.item)))) out.new result }
{
    let row = store_table::alarm_row(t, e.item as usize);
    tell_alarm(out, at, t, id, row, held_state(e, row))
}

fn write_held_status(out: &mut [u8], at: usize, t: &[u8], id: Identity, e: Entry) -> usize
    requires { length t.now ≡ table_bytes }
    ensures { (s : Site) → s.table ≡ table_of t.now → Wrote out.old at (pieces (status_told s id.bytes (status_row_at s e.item) e.time (held_value e))) out.new result }
{
    let row = store_table::status_row(t, e.item as usize);
    tell_status(out, at, t, id, row, e.time, held_value(e))
}

// A held record.
pub fn write_entry(out: &mut [u8], at: usize, t: &[u8], id: Identity, e: Entry) -> usize
    requires { length t.now ≡ table_bytes }
    ensures { (s : Site) → s.table ≡ table_of t.now → Wrote out.old at (pieces (entry_message s id.bytes e)) out.new result }
{
    if e.kind == entry::ALARM {
        return write_held_alarm(out, at, t, id, e);
    }
    if e.kind == entry::STATUS {
        return write_held_status(out, at, t, id, e);
    }
    tell_aggregated(out, at, t, id, e.time, e.value as u64)
}
