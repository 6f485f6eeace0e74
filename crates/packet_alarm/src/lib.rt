// What a supervisor orders of an alarm, and its request for the aggregated status, in place.
#![tactic(auto)]

ghost use Rattle.std.specs.Prelude.{◌≡◌, List, [], ◌++◌, ℕ, ◌<◌, length};
ghost use Rattle.answer.specs.Given.Hint.{none};
ghost use Rattle.table_whole.specs.declared.SiteTable.{SiteTable};
ghost use Rattle.store_table.specs.Layout.{table_of, table_bytes};
ghost use Rattle.packet_lookup.specs.Sought.{alarm_sought, component_sought};
ghost use Rattle.output.specs.Put.{Wrote};
ghost use Rattle.json_find.specs.Index.{Indexed};
ghost use Rattle.read_head.specs.Small.{alarm_at, aggregated_at};
ghost use Rattle.write_message.specs.Message.Message.{ack};
ghost use Rattle.write_message.specs.Pieces.{pieces};
ghost use Rattle.send_message.specs.Sending.{alarm_message, aggregated_message};
ghost use Rattle.site.specs.declared.Site.{Site};
ghost use Rattle.site.specs.Call.{never};
ghost use Rattle.site.specs.Parts.{with_alarm};
ghost use Rattle.store_site.specs.Layout.{site_of, with_last, pool_words, site_words};
ghost use Rattle.store_site.specs.Turns.{Moves};
ghost use Rattle.store_call.specs.Called.{GivesIn};
ghost use Rattle.store_call.specs.Issued.{issued_in};
ghost use Rattle.packet_answer.specs.Taken.{acked, replied, unless_busy};
ghost use Rattle.packet_answer.specs.Takes.{TakesIn};
ghost use Rattle.packet_alarm.specs.Orders.{records_of, changed_to, change_taken, request_taken, ordered as ordered_by, found_taken, alarm_taken, is_zero, aggregated_of, aggregated_taken};

use alarm::Changed;
use answer::{Answer, Refusal};
use label::Label;
use link::Role;
use names::reasons;
use packet_answer::Question;
use packet_lookup::{Sought, SoughtAlarm};
use read_head::{AlarmFields, GotLabel, Order, Verdict};

// The alarm afterwards, the record of its change or none, and the time.
fn keep(p: &mut [u64], w: &mut [u64], time: u64, k: u8, c: Changed)
    requires { (length p.old ≡ pool_words) × (length w.old ≡ site_words) }
    ensures { Moves (λ (s : Site). with_last (issued_in (with_alarm s k c.alarm) (records_of s k c)) time) p.old p.new w.old w.new }
{
    let a = c.alarm;
    store_site::items::put_alarm(w, k as usize, a);
    store_call::records::add_alarm(p, w, c, k as u16);
    store_site::parts::put_last(w, time);
}

// An alarm was changed, or not.
fn changed(p: &mut [u64], w: &mut [u64], q: Question, k: u8, c: Changed, out: &mut [u8]) -> Answer
    requires { (length p.old ≡ pool_words) × (length w.old ≡ site_words) }
    ensures { (t : SiteTable) → GivesIn t q.time never (changed_to (site_of p.old w.old t) q k c).plan p.old p.new w.old w.new out.old out.new result }
{
    let n = store_call::records::of_alarm(w, c);
    if store_call::spent(w, n) {
        return Answer::Refused(Refusal::SequenceSpent);
    }
    let end = packet_answer::ack(q, out);
    keep(p, w, q.time, k, c);
    Answer::Done(packet_answer::report(0, 0, end, 0))
}

// Acknowledge, Suspend or Resume of alarm k, from any link.
fn change(
    p: &mut [u64],
    w: &mut [u64],
    q: Question,
    k: u8,
    order: alarm::Order,
    out: &mut [u8],
) -> Answer
    requires { (length p.old ≡ pool_words) × (length w.old ≡ site_words) }
    ensures { (t : SiteTable) → GivesIn t q.time never (change_taken (site_of p.old w.old t) q k order).plan p.old p.new w.old w.new out.old out.new result }
{
    let a = store_site::items::alarm(w, k as usize);
    changed(p, w, q, k, a.order(order, q.time), out)
}

// The acknowledgement, and the alarm in the rest of the output, lent from where it ends. Where it found no room, nothing follows.
fn answer_and_alarm(w: &[u64], t: &[u8], q: Question, k: u8, out: &mut [u8]) -> usize
    requires { (length w.now ≡ site_words) × (length t.now ≡ table_bytes) }
    ensures { (ps : List ℕ) → Wrote out.old 0 (pieces (ack q.received.bytes) ++ pieces (alarm_message (site_of ps w.now (table_of t.now)) q.identity.bytes k)) out.new result }
{
    let id = q.identity;
    let end = packet_answer::ack(q, out);
    if out.len() < end {
        return end;
    }
    let more = send_message::write_alarm(&mut out[end..], 0, w, t, id, k as usize);
    end + more
}

// The alarm as it is, behind the acknowledgement.
fn reply_alarm(w: &mut [u64], t: &[u8], q: Question, k: u8, out: &mut [u8]) -> Answer
    requires { (length w.old ≡ site_words) × ((length t.now ≡ table_bytes) × (q.link < 4)) }
    ensures { (ps : List ℕ) → TakesIn (table_of t.now) q (unless_busy (site_of ps w.old (table_of t.now)) q (replied (site_of ps w.old (table_of t.now)) q (alarm_message (site_of ps w.old (table_of t.now)) q.identity.bytes k))) ps ps w.old w.new out.old out.new result }
{
    let id = q.identity;
    if packet_answer::is_busy(w, q.link) {
        return packet_answer::not_ack(w, q, reasons::BUSY, out);
    }
    if packet_answer::is_awaited(w, q.link, id) {
        return Answer::Refused(Refusal::IdentityAwaited);
    }
    let end = answer_and_alarm(w, t, q, k, out);
    packet_answer::reply_done(w, q, end)
}

// Acknowledged, and nothing else.
fn accept(w: &mut [u64], q: Question, out: &mut [u8]) -> Answer
    requires { length w.old ≡ site_words }
    ensures { (ps : List ℕ) (t : SiteTable) → GivesIn t q.time never (acked (site_of ps w.old t) [] q none).plan ps ps w.old w.new out.old out.new result }
{
    let end = packet_answer::ack(q, out);
    packet_answer::done(w, q.time, 0, 0, end, 0)
}

// Request of alarm k: a secondary's is acknowledged only.
fn request(w: &mut [u64], t: &[u8], q: Question, k: u8, out: &mut [u8]) -> Answer
    requires { (length w.old ≡ site_words) × ((length t.now ≡ table_bytes) × (q.link < 4)) }
    ensures { (ps : List ℕ) → TakesIn (table_of t.now) q (request_taken (site_of ps w.old (table_of t.now)) q k) ps ps w.old w.new out.old out.new result }
{
    let role = store_site::head::role(w, q.link);
    match role {
        Role::Primary => reply_alarm(w, t, q, k, out),
        Role::Secondary => accept(w, q, out),
    }
}

fn ordered(
    p: &mut [u64],
    w: &mut [u64],
    t: &[u8],
    q: Question,
    k: u8,
    order: Order,
    out: &mut [u8],
) -> Answer
    requires { (length p.old ≡ pool_words) × ((length w.old ≡ site_words) × ((length t.now ≡ table_bytes) × (q.link < 4))) }
    ensures { TakesIn (table_of t.now) q (ordered_by (site_of p.old w.old (table_of t.now)) q k order) p.old p.new w.old w.new out.old out.new result }
{
    match order {
        Order::Request => request(w, t, q, k, out),
        Order::Acknowledge => change(p, w, q, k, alarm::Order::Acknowledge, out),
        Order::Suspend => change(p, w, q, k, alarm::Order::Suspend, out),
        Order::Resume => change(p, w, q, k, alarm::Order::Resume, out),
    }
}

fn alarm_of(t: &[u8], f: AlarmFields) -> SoughtAlarm
    requires { length t.now ≡ table_bytes }
    ensures { result ≡ alarm_sought (table_of t.now) f.component f.code }
{
    let component = f.component;
    let code = f.code;
    packet_lookup::alarm(t, component, code)
}

fn find(
    p: &mut [u64],
    w: &mut [u64],
    t: &[u8],
    q: Question,
    f: AlarmFields,
    out: &mut [u8],
) -> Answer
    requires { (length p.old ≡ pool_words) × ((length w.old ≡ site_words) × ((length t.now ≡ table_bytes) × (q.link < 4))) }
    ensures { TakesIn (table_of t.now) q (found_taken (site_of p.old w.old (table_of t.now)) q f) p.old p.new w.old w.new out.old out.new result }
{
    let a = alarm_of(t, f);
    let order = f.order;
    match a {
        SoughtAlarm::Alarm(k) => ordered(p, w, t, q, k, order, out),
        SoughtAlarm::NoComponent => {
            packet_answer::not_ack(w, q, reasons::UNKNOWN_COMPONENT, out)
        }
        SoughtAlarm::NoAlarm => { packet_answer::not_ack(w, q, reasons::UNKNOWN_ALARM, out) }
    }
}

fn judge(
    p: &mut [u64],
    w: &mut [u64],
    t: &[u8],
    q: Question,
    f: AlarmFields,
    out: &mut [u8],
) -> Answer
    requires { (length p.old ≡ pool_words) × ((length w.old ≡ site_words) × ((length t.now ≡ table_bytes) × (q.link < 4))) }
    ensures { TakesIn (table_of t.now) q (alarm_taken (site_of p.old w.old (table_of t.now)) q f) p.old p.new w.old w.new out.old out.new result }
{
    let v = f.verdict;
    match v {
        Verdict::Good => find(p, w, t, q, f, out),
        Verdict::Missing => packet_answer::not_ack(w, q, reasons::MISSING_ELEMENT, out),
        Verdict::Bad => packet_answer::not_ack(w, q, reasons::BAD_VALUE, out),
    }
}

// An Alarm of theirs.
pub fn alarm(
    p: &mut [u64],
    w: &mut [u64],
    t: &[u8],
    q: Question,
    packet: &[u8],
    places: &[usize],
    out: &mut [u8],
) -> Answer
    requires { (length p.old ≡ pool_words) × ((length w.old ≡ site_words) × ((length t.now ≡ table_bytes) × ((q.link < 4) × Indexed packet.now places.now))) }
    ensures { TakesIn (table_of t.now) q (alarm_taken (site_of p.old w.old (table_of t.now)) q (alarm_at packet.now)) p.old p.new w.old w.new out.old out.new result }
{
    let f = read_head::read_alarm(packet, places);
    judge(p, w, t, q, f, out)
}

// The acknowledgement, and the aggregated status in the rest of the output, lent from where it ends. Where it found no room, nothing follows.
fn answer_and_aggregated(w: &[u64], t: &[u8], q: Question, out: &mut [u8]) -> usize
    requires { (length w.now ≡ site_words) × (length t.now ≡ table_bytes) }
    ensures { (ps : List ℕ) → Wrote out.old 0 (pieces (ack q.received.bytes) ++ pieces (aggregated_message (site_of ps w.now (table_of t.now)) q.identity.bytes)) out.new result }
{
    let id = q.identity;
    let end = packet_answer::ack(q, out);
    if out.len() < end {
        return end;
    }
    let more = send_message::write_aggregated(&mut out[end..], 0, w, t, id);
    end + more
}

// The aggregated status as it is, behind the acknowledgement.
fn reply_aggregated(w: &mut [u64], t: &[u8], q: Question, out: &mut [u8]) -> Answer
    requires { (length w.old ≡ site_words) × ((length t.now ≡ table_bytes) × (q.link < 4)) }
    ensures { (ps : List ℕ) → TakesIn (table_of t.now) q (unless_busy (site_of ps w.old (table_of t.now)) q (replied (site_of ps w.old (table_of t.now)) q (aggregated_message (site_of ps w.old (table_of t.now)) q.identity.bytes))) ps ps w.old w.new out.old out.new result }
{
    let id = q.identity;
    if packet_answer::is_busy(w, q.link) {
        return packet_answer::not_ack(w, q, reasons::BUSY, out);
    }
    if packet_answer::is_awaited(w, q.link, id) {
        return Answer::Refused(Refusal::IdentityAwaited);
    }
    let end = answer_and_aggregated(w, t, q, out);
    packet_answer::reply_done(w, q, end)
}

fn is_zero(c: Sought) -> bool
    ensures { result ≡ is_zero c }
{
    match c {
        Sought::Is(k) => k == 0,
        Sought::Nothing => false,
    }
}

fn carries(t: &[u8], id: Label) -> bool
    requires { length t.now ≡ table_bytes }
    ensures { result ≡ is_zero (component_sought (table_of t.now) id) }
{
    is_zero(packet_lookup::component(t, id))
}

fn aggregated_for(w: &mut [u64], t: &[u8], q: Question, component: Label, out: &mut [u8]) -> Answer
    requires { (length w.old ≡ site_words) × ((length t.now ≡ table_bytes) × (q.link < 4)) }
    ensures { (ps : List ℕ) → TakesIn (table_of t.now) q (aggregated_of (site_of ps w.old (table_of t.now)) q (component_sought (table_of t.now) component)) ps ps w.old w.new out.old out.new result }
{
    if carries(t, component) {
        return reply_aggregated(w, t, q, out);
    }
    packet_answer::not_ack(w, q, reasons::UNKNOWN_COMPONENT, out)
}

fn judge_aggregated(w: &mut [u64], t: &[u8], q: Question, f: GotLabel, out: &mut [u8]) -> Answer
    requires { (length w.old ≡ site_words) × ((length t.now ≡ table_bytes) × (q.link < 4)) }
    ensures { (ps : List ℕ) → TakesIn (table_of t.now) q (aggregated_taken (site_of ps w.old (table_of t.now)) q f) ps ps w.old w.new out.old out.new result }
{
    let v = f.verdict;
    match v {
        Verdict::Good => aggregated_for(w, t, q, f.label, out),
        Verdict::Missing => packet_answer::not_ack(w, q, reasons::MISSING_ELEMENT, out),
        Verdict::Bad => packet_answer::not_ack(w, q, reasons::BAD_VALUE, out),
    }
}

// An AggregatedStatusRequest.
pub fn aggregated(
    w: &mut [u64],
    t: &[u8],
    q: Question,
    packet: &[u8],
    places: &[usize],
    out: &mut [u8],
) -> Answer
    requires { (length w.old ≡ site_words) × ((length t.now ≡ table_bytes) × ((q.link < 4) × Indexed packet.now places.now)) }
    ensures { (ps : List ℕ) → TakesIn (table_of t.now) q (aggregated_taken (site_of ps w.old (table_of t.now)) q (aggregated_at packet.now)) ps ps w.old w.new out.old out.new result }
{
    let f = read_head::read_aggregated(packet, places);
    judge_aggregated(w, t, q, f, out)
}
