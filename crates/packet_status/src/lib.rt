// StatusRequest, of either form: its entries, told with their values, which are read from the words as they are written out.
#![tactic(auto)]

ghost use Rattle.std.specs.Prelude.{◌≡◌, true, false, List, [], ◌++◌, ℕ, ◌<◌, length};
ghost use Rattle.output.specs.Put.{Wrote};
ghost use Rattle.write_message.specs.Message.Message.{ack};
ghost use Rattle.write_message.specs.Pieces.{pieces, entry_pieces, entries_pieces};
ghost use Rattle.write_message.specs.declared.Told.TheVariants.{Response as response_kind};
ghost use Rattle.label.specs.Label.{text_of};
ghost use Rattle.json_find.specs.Index.{Indexed};
ghost use Rattle.read_lists.specs.Status.{status_at};
ghost use Rattle.store_table.specs.Layout.{table_of, table_bytes};
ghost use Rattle.packet_lookup.specs.Sought.{component_sought, status_sought};
ghost use Rattle.site.specs.declared.Site.{Site};
ghost use Rattle.store_site.specs.Layout.{site_of, site_words};
ghost use Rattle.packet_answer.specs.Taken.{answering};
ghost use Rattle.packet_answer.specs.Ending.{response_of};
ghost use Rattle.packet_answer.specs.Takes.{TakesIn};
ghost use Rattle.packet_status.specs.StatusReply.{value_of, value_in, told_of, told_to, told, passes as passes_of, requested_of, status_taken};

use answer::{Answer, Refusal};
use names::reasons;
use packet_answer::Question;
use packet_lookup::Sought;
use read_head::Verdict;
use read_lists::{Asking, StatusEntry, StatusFields};
use write_message::{Told, Value};

// The value of a status of a known component.
fn value_of(w: &[u64], t: &[u8], component: u8, e: StatusEntry) -> Value
    requires { (length w.now ≡ site_words) × (length t.now ≡ table_bytes) }
    ensures { (ps : List ℕ) → result ≡ value_of (site_of ps w.now (table_of t.now)) (status_sought (table_of t.now) component e) }
{
    let k = packet_lookup::status(t, component, e);
    match k {
        Sought::Is(n) => send_message::status_value(store_site::items::status(w, n as usize)),
        Sought::Nothing => Value::Undefined,
    }
}

fn value_in(w: &[u64], t: &[u8], component: Sought, e: StatusEntry) -> Value
    requires { (length w.now ≡ site_words) × (length t.now ≡ table_bytes) }
    ensures { (ps : List ℕ) → result ≡ value_in (site_of ps w.now (table_of t.now)) component e }
{
    match component {
        Sought::Is(c) => value_of(w, t, c, e),
        Sought::Nothing => Value::Undefined,
    }
}

// One entry, the first or another.
fn write_entry(
    out: &mut [u8],
    at: usize,
    w: &[u64],
    t: &[u8],
    component: Sought,
    e: StatusEntry,
    first: bool,
) -> usize
    requires { (length w.now ≡ site_words) × (length t.now ≡ table_bytes) }
    ensures { (ps : List ℕ) → Wrote out.old at (entry_pieces response_kind first (told_of (site_of ps w.now (table_of t.now)) component e)) out.new result }
{
    let v = value_in(w, t, component, e);
    let code = e.code;
    let name = e.name;
    write_report::status::entry(out, at, Told::Response, first, code, name, v)
}

// The first count entries, in order.
fn write_entries(
    out: &mut [u8],
    at: usize,
    w: &[u64],
    t: &[u8],
    component: Sought,
    entries: [StatusEntry; 16],
    count: usize,
) -> usize
    requires { (length w.now ≡ site_words) × (length t.now ≡ table_bytes) }
    ensures { (ps : List ℕ) → Wrote out.old at (entries_pieces response_kind true (told_to (site_of ps w.now (table_of t.now)) component entries count)) out.new result }
{
    let mut end = at;
    for i in 0..count {
        let e = packet_lookup::entry_in(entries, i);
        end = write_entry(out, end, w, t, component, e, i == 0);
    }
    end
}

// From the start of the part that is lent.
fn write_response(
    out: &mut [u8],
    w: &[u64],
    t: &[u8],
    q: Question,
    component: Sought,
    f: StatusFields,
) -> usize
    requires { (length w.now ≡ site_words) × (length t.now ≡ table_bytes) }
    ensures { (ps : List ℕ) → Wrote out.old 0 (pieces (response_of q response_kind (text_of f.component) (told (site_of ps w.now (table_of t.now)) component f))) out.new result }
{
    let named = f.component;
    let entries = f.entries;
    let end = packet_answer::begin(out, q, Told::Response, named);
    let end = write_entries(out, end, w, t, component, entries, f.count);
    write_report::status::finish(out, end)
}

// The acknowledgement, and the response in the rest of the output, lent from where it ends. Where it found no room, nothing follows.
fn answer_and_response(
    w: &[u64],
    t: &[u8],
    q: Question,
    component: Sought,
    f: StatusFields,
    out: &mut [u8],
) -> usize
    requires { (length w.now ≡ site_words) × (length t.now ≡ table_bytes) }
    ensures { (ps : List ℕ) → Wrote out.old 0 (pieces (ack q.received.bytes) ++ pieces (response_of q response_kind (text_of f.component) (told (site_of ps w.now (table_of t.now)) component f))) out.new result }
{
    let end = packet_answer::ack(q, out);
    if out.len() < end {
        return end;
    }
    let more = write_response(&mut out[end..], w, t, q, component, f);
    end + more
}

// Whether each entry is a status of a known component.
fn passes(t: &[u8], f: StatusFields, component: Sought) -> bool
    requires { length t.now ≡ table_bytes }
    ensures { (s : Site) → s.table ≡ table_of t.now → result ≡ passes_of s f component }
{
    let entries = f.entries;
    match component {
        Sought::Is(c) => packet_lookup::all_statuses(t, c, entries, f.count),
        Sought::Nothing => true,
    }
}

// The statuses, with the acknowledgement in one message or behind it.
fn reply(
    w: &mut [u64],
    t: &[u8],
    q: Question,
    component: Sought,
    f: StatusFields,
    out: &mut [u8],
) -> Answer
    requires { (length w.old ≡ site_words) × ((length t.now ≡ table_bytes) × (q.link < 4)) }
    ensures { (ps : List ℕ) → TakesIn (table_of t.now) q (answering (site_of ps w.old (table_of t.now)) q response_kind (text_of f.component) (told (site_of ps w.old (table_of t.now)) component f) []) ps ps w.old w.new out.old out.new result }
{
    if q.included {
        let end = write_response(out, w, t, q, component, f);
        return packet_answer::respond_done(w, q.time, end, 0);
    }
    let id = q.identity;
    if packet_answer::is_busy(w, q.link) {
        return packet_answer::not_ack(w, q, reasons::BUSY, out);
    }
    if packet_answer::is_awaited(w, q.link, id) {
        return Answer::Refused(Refusal::IdentityAwaited);
    }
    let end = answer_and_response(w, t, q, component, f, out);
    packet_answer::reply_done(w, q, end)
}

fn requested(w: &mut [u64], t: &[u8], q: Question, f: StatusFields, out: &mut [u8]) -> Answer
    requires { (length w.old ≡ site_words) × ((length t.now ≡ table_bytes) × (q.link < 4)) }
    ensures { (ps : List ℕ) → TakesIn (table_of t.now) q (requested_of (site_of ps w.old (table_of t.now)) q f (component_sought (table_of t.now) f.component)) ps ps w.old w.new out.old out.new result }
{
    let named = f.component;
    let component = packet_lookup::component(t, named);
    if passes(t, f, component) {
        return reply(w, t, q, component, f, out);
    }
    packet_answer::not_ack(w, q, reasons::UNKNOWN_STATUS, out)
}

// A StatusRequest, or a StatusRequestAckIncluded.
pub fn status_request(
    w: &mut [u64],
    t: &[u8],
    q: Question,
    packet: &[u8],
    places: &[usize],
    out: &mut [u8],
) -> Answer
    requires { (length w.old ≡ site_words) × ((length t.now ≡ table_bytes) × ((q.link < 4) × Indexed packet.now places.now)) }
    ensures { (ps : List ℕ) → TakesIn (table_of t.now) q (status_taken (site_of ps w.old (table_of t.now)) q (status_at Asking.Plain packet.now)) ps ps w.old w.new out.old out.new result }
{
    let f = read_lists::read_status(packet, places, Asking::Plain);
    let v = f.verdict;
    match v {
        Verdict::Good => requested(w, t, q, f, out),
        Verdict::Missing => packet_answer::not_ack(w, q, reasons::MISSING_ELEMENT, out),
        Verdict::Bad => packet_answer::not_ack(w, q, reasons::BAD_VALUE, out),
    }
}
