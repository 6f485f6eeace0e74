// Packet, in place: the call that strangers reach.
#![tactic(auto)]

ghost use Rattle.std.specs.Prelude.{◌≡◌, true, false, List, ℕ, ◌<◌, ◌+◌, ◌*◌, length, get_or};
ghost use Rattle.identity.specs.Version.{identity_of};
ghost use Rattle.json_find.specs.Index.{Indexed};
ghost use Rattle.read_head.specs.Head.{head_at};
ghost use Rattle.link.specs.Phase.{is_beating};
ghost use Rattle.link.specs.Steps.{may_judge_of};
ghost use Rattle.table_whole.specs.declared.SiteTable.{SiteTable};
ghost use Rattle.site.specs.Site.{link_at};
ghost use Rattle.store_site.specs.Layout.{site_of, pool_words, site_words};
ghost use Rattle.store_table.specs.Layout.{table_of, table_bytes};
ghost use Rattle.store_call.specs.Called.{GivesIn};
ghost use Rattle.packet_answer.specs.Takes.{TakesIn};
ghost use Rattle.call_packet.specs.Packet.{is_version, is_watchdog, is_greeting, expected as expected_of, unready as unready_of, early as early_of, unawaited as unawaited_of, ignored_by, kind_taken, expected_taken, asked_taken, class_taken, head_taken, head_refuses, packet_taken, packet_refuses};

use answer::{Answer, Refusal};
use identity::Identity;
use link::Phase;
use names::reasons;
use packet_answer::Question;
use read_head::{Class, Head, Kind, Verdict};

fn is_version(k: Kind) -> bool
    ensures { result ≡ is_version k }
{
    read_head::kind_number(k) == 1
}

fn is_watchdog(k: Kind) -> bool
    ensures { result ≡ is_watchdog k }
{
    read_head::kind_number(k) == 2
}

fn is_greeting(p: Phase) -> bool
    ensures { result ≡ is_greeting p }
{
    matches!(p, Phase::Greeting)
}

fn is_beating(p: Phase) -> bool
    ensures { result ≡ is_beating p }
{
    matches!(p, Phase::Beating)
}

fn may_judge(w: &[u64], l: u16) -> bool
    requires { (length w.now ≡ site_words) × (l < 4) }
    ensures { (ps : List ℕ) (t : SiteTable) → result ≡ may_judge_of (link_at (site_of ps w.now t) l) }
{
    !store_site::phases::version_taken(w, l as usize)
        && store_site::phases::version_out(w, l as usize)
}

fn expected(w: &[u64], l: u16, kind: Kind) -> bool
    requires { (length w.now ≡ site_words) × (l < 4) }
    ensures { (ps : List ℕ) (t : SiteTable) → result ≡ expected_of (link_at (site_of ps w.now t) l) kind }
{
    if is_version(kind) {
        return may_judge(w, l);
    }
    0 < read_head::kind_number(kind)
}

fn unready(w: &[u64], l: u16, kind: Kind) -> bool
    requires { (length w.now ≡ site_words) × (l < 4) }
    ensures { (ps : List ℕ) (t : SiteTable) → result ≡ unready_of (link_at (site_of ps w.now t) l) kind }
{
    is_beating(store_site::phases::phase(w, l as usize)) && !is_watchdog(kind)
}

fn early(w: &[u64], l: u16, kind: Kind) -> bool
    requires { (length w.now ≡ site_words) × (l < 4) }
    ensures { (ps : List ℕ) (t : SiteTable) → result ≡ early_of (link_at (site_of ps w.now t) l) kind }
{
    is_greeting(store_site::phases::phase(w, l as usize)) && !is_version(kind)
}

fn unawaited(w: &[u64], l: u16, id: Identity) -> bool
    requires { (length w.now ≡ site_words) × (l < 4) }
    ensures { (ps : List ℕ) (t : SiteTable) → result ≡ unawaited_of (link_at (site_of ps w.now t) l) id }
{
    !packet_answer::is_awaited(w, l, id)
}

fn ignored(w: &[u64], l: u16, id: Identity, class: Class) -> bool
    requires { (length w.now ≡ site_words) × (l < 4) }
    ensures { (ps : List ℕ) (t : SiteTable) → result ≡ ignored_by (link_at (site_of ps w.now t) l) id class }
{
    match class {
        Class::Ignored => true,
        Class::Acked => unawaited(w, l, id),
        Class::NotAcked => unawaited(w, l, id),
        Class::Asked(_, kind) => early(w, l, kind),
    }
}

// A request of a kind that is taken now.
fn by_kind(
    p: &mut [u64],
    w: &mut [u64],
    t: &[u8],
    q: Question,
    packet: &[u8],
    places: &[usize],
    kind: Kind,
    out: &mut [u8],
) -> Answer
    requires { (length p.old ≡ pool_words) × (length w.old ≡ site_words) × (length t.now ≡ table_bytes) × (q.link < 4) × Indexed packet.now places.now }
    ensures { TakesIn (table_of t.now) q (kind_taken (site_of p.old w.old (table_of t.now)) q packet.now kind) p.old p.new w.old w.new out.old out.new result }
{
    match kind {
        Kind::Version => packet_greet::version(p, w, t, q, packet, places, out),
        Kind::Watchdog => packet_greet::watchdog(w, q, packet, places, out),
        Kind::Alarm => packet_alarm::alarm(p, w, t, q, packet, places, out),
        Kind::AggregatedStatusRequest => packet_alarm::aggregated(w, t, q, packet, places, out),
        Kind::StatusRequest => packet_status::status_request(w, t, q, packet, places, out),
        Kind::StatusSubscribe => packet_subscribe::subscribe(p, w, t, q, packet, places, out),
        Kind::StatusUnsubscribe => packet_subscribe::unsubscribe(p, w, t, q, packet, places, out),
        Kind::CommandRequest => packet_command::command(w, t, q, packet, places, out),
        Kind::Unexpected => packet_answer::not_ack(w, q, reasons::UNEXPECTED, out),
    }
}

// "Unexpected", "Not ready", then the reasons of the kind.
fn expect(
    p: &mut [u64],
    w: &mut [u64],
    t: &[u8],
    q: Question,
    packet: &[u8],
    places: &[usize],
    kind: Kind,
    out: &mut [u8],
) -> Answer
    requires { (length p.old ≡ pool_words) × (length w.old ≡ site_words) × (length t.now ≡ table_bytes) × (q.link < 4) × Indexed packet.now places.now }
    ensures { TakesIn (table_of t.now) q (expected_taken (site_of p.old w.old (table_of t.now)) q packet.now kind) p.old p.new w.old w.new out.old out.new result }
{
    if expected(w, q.link, kind) {
        if unready(w, q.link, kind) {
            return packet_answer::not_ack(w, q, reasons::NOT_READY, out);
        }
        return by_kind(p, w, t, q, packet, places, kind, out);
    }
    packet_answer::not_ack(w, q, reasons::UNEXPECTED, out)
}

// mType, then the rest.
fn asked(
    p: &mut [u64],
    w: &mut [u64],
    t: &[u8],
    q: Question,
    packet: &[u8],
    places: &[usize],
    v: Verdict,
    kind: Kind,
    out: &mut [u8],
) -> Answer
    requires { (length p.old ≡ pool_words) × (length w.old ≡ site_words) × (length t.now ≡ table_bytes) × (q.link < 4) × Indexed packet.now places.now }
    ensures { TakesIn (table_of t.now) q (asked_taken (site_of p.old w.old (table_of t.now)) q packet.now v kind) p.old p.new w.old w.new out.old out.new result }
{
    match v {
        Verdict::Good => expect(p, w, t, q, packet, places, kind, out),
        Verdict::Missing => packet_answer::not_ack(w, q, reasons::MISSING_ELEMENT, out),
        Verdict::Bad => packet_answer::not_ack(w, q, reasons::BAD_VALUE, out),
    }
}

// An answer, or a request.
fn by_class(
    p: &mut [u64],
    w: &mut [u64],
    t: &[u8],
    q: Question,
    answered: Identity,
    packet: &[u8],
    places: &[usize],
    class: Class,
    out: &mut [u8],
) -> Answer
    requires { (length p.old ≡ pool_words) × (length w.old ≡ site_words) × (length t.now ≡ table_bytes) × (q.link < 4) × Indexed packet.now places.now }
    ensures { TakesIn (table_of t.now) q (class_taken (site_of p.old w.old (table_of t.now)) q answered packet.now class) p.old p.new w.old w.new out.old out.new result }
{
    match class {
        Class::Ignored => packet_answer::done(w, q.time, 0, 0, 0, 0),
        Class::Acked => packet_greet::answered(p, w, q.link, q.time, answered, true),
        Class::NotAcked => packet_greet::answered(p, w, q.link, q.time, answered, false),
        Class::Asked(v, kind) => asked(p, w, t, q, packet, places, v, kind, out),
    }
}

fn heed(
    p: &mut [u64],
    w: &mut [u64],
    t: &[u8],
    l: u16,
    time: u64,
    id: Identity,
    packet: &[u8],
    places: &[usize],
    h: Head,
    out: &mut [u8],
) -> Answer
    requires { (length p.old ≡ pool_words) × (length w.old ≡ site_words) × (length t.now ≡ table_bytes) × (l < 4) × Indexed packet.now places.now }
    ensures { GivesIn (table_of t.now) time (head_refuses (site_of p.old w.old (table_of t.now)) l time id packet.now h) (head_taken (site_of p.old w.old (table_of t.now)) l time id packet.now h).plan p.old p.new w.old w.new out.old out.new result }
{
    let class = h.class;
    let answered = h.identity;
    let received = h.received;
    if ignored(w, l, answered, class) {
        return Answer::Refused(Refusal::Ignored);
    }
    let q = Question {
        link: l,
        time,
        identity: id,
        received,
        included: h.included,
    };
    by_class(p, w, t, q, answered, packet, places, class, out)
}

fn word_of(a: u8, b: u8, c: u8, d: u8) -> u32
    ensures { result ≡ a * 16777216 + b * 65536 + c * 256 + d }
{
    a as u32 * 16777216 + b as u32 * 65536 + c as u32 * 256 + d as u32
}

// A key for the marks of a packet's names, of four random bytes.
fn key_of(id: Identity) -> u32
    ensures { result ≡ get_or id.bytes 0 0 * 16777216 + get_or id.bytes 1 0 * 65536 + get_or id.bytes 2 0 * 256 + get_or id.bytes 3 0 }
{
    let b = id.bytes;
    word_of(b[0], b[1], b[2], b[3])
}

// A packet is judged once, and where the entries of its object begin is noted for all who read it.
fn judged(
    p: &mut [u64],
    w: &mut [u64],
    t: &[u8],
    l: u16,
    time: u64,
    id: Identity,
    packet: &[u8],
    out: &mut [u8],
) -> Answer
    requires { (length p.old ≡ pool_words) × (length w.old ≡ site_words) × (length t.now ≡ table_bytes) × (l < 4) }
    ensures { GivesIn (table_of t.now) time (head_refuses (site_of p.old w.old (table_of t.now)) l time id packet.now (head_at packet.now)) (packet_taken (site_of p.old w.old (table_of t.now)) l time id packet.now).plan p.old p.new w.old w.new out.old out.new result }
{
    let mut places = [0usize; 32];
    let j = json_packet::judge(packet, key_of(id), &mut places);
    let n = j.count;
    let h = read_head::read_head(packet, &places[0..n], j.packet);
    heed(p, w, t, l, time, id, packet, &places[0..n], h, out)
}

// Sixteen random bytes as an identity of version 4.
fn own_identity(random: Identity) -> Identity
    ensures { result ≡ identity_of random }
{
    identity::version4(random)
}

// One message without its form feed, received on a link; `random` is sixteen random bytes.
pub fn packet(
    p: &mut [u64],
    w: &mut [u64],
    t: &[u8],
    link: u32,
    time: u64,
    random: Identity,
    packet: &[u8],
    out: &mut [u8],
) -> Answer
    requires { (length p.old ≡ pool_words) × (length w.old ≡ site_words) × (length t.now ≡ table_bytes) }
    ensures { GivesIn (table_of t.now) time (packet_refuses (site_of p.old w.old (table_of t.now)) link time (identity_of random) (length out.old) packet.now) (packet_taken (site_of p.old w.old (table_of t.now)) link time (identity_of random) packet.now).plan p.old p.new w.old w.new out.old out.new result }
{
    if store_site::head::no_link(w, link) {
        return Answer::Refused(Refusal::NoSuchLink);
    }
    if out.len() < 4096 {
        return Answer::Refused(Refusal::ShortOutput);
    }
    if 4096 < packet.len() {
        return Answer::Refused(Refusal::LongPacket);
    }
    if store_site::head::bad_time(w, time) {
        return Answer::Refused(Refusal::BadTime);
    }
    let l = link as u16;
    if store_site::phases::down(w, l as usize) {
        return Answer::Refused(Refusal::WrongPhase);
    }
    let id = own_identity(random);
    judged(p, w, t, l, time, id, packet, out)
}
