// StatusSubscribe and StatusUnsubscribe, in place.
#![tactic(auto)]

ghost use Rattle.std.specs.Prelude.{◌≡◌, true, false, List, [], ℕ, ◌+◌, ◌*◌, ◌<◌, length};
ghost use Rattle.basis.specs.Pick.{pick};
ghost use Rattle.table_whole.specs.declared.SiteTable.{SiteTable};
ghost use Rattle.site.specs.declared.Site.{Site};
ghost use Rattle.site.specs.Site.{link_at};
ghost use Rattle.site.specs.Call.{never};
ghost use Rattle.store_site.specs.Layout.{site_of, pool_words, site_words};
ghost use Rattle.store_site.specs.Turns.{Turns, Moves};
ghost use Rattle.store_table.specs.Layout.{table_of, table_bytes};
ghost use Rattle.store_call.specs.Called.{GivesIn};
ghost use Rattle.store_call.specs.Issued.{issued_in};
ghost use Rattle.json_find.specs.Index.{Indexed};
ghost use Rattle.read_lists.specs.Status.{status_at as fields_at};
ghost use Rattle.packet_lookup.specs.Sought.{component_sought, status_sought, all_statuses};
ghost use Rattle.packet_subscribe.specs.Subscribing.{wanted as wanted_of, replaced_at, replaced as replaced_of, record_of, records as records_of, changed, judged, asked, subscribing_taken, asking_by, asking_on};
ghost use Rattle.packet_subscribe.specs.InPlace.{MovesIn};

use answer::{Answer, Refusal};
use names::reasons;
use packet_answer::Question;
use packet_lookup::Sought;
use read_head::Verdict;
use read_lists::{Asking, StatusEntry, StatusFields};
use subscription::Subscription;

// What an entry asks for, or no subscription.
fn wanted(subscribing: bool, e: StatusEntry, time: u64) -> Subscription
    ensures { result ≡ wanted_of subscribing e time }
{
    if subscribing {
        return Subscription::subscribe(e.seconds, e.onchange, time);
    }
    Subscription::none()
}

// The place of the subscription of link l to status k.
fn place(l: u16, k: u8) -> usize
    ensures { result ≡ l * 32 + k }
{
    (l as usize) * 32 + (k as usize)
}

fn replace(
    w: &mut [u64],
    t: &[u8],
    subscribing: bool,
    l: u16,
    time: u64,
    component: u8,
    e: StatusEntry,
)
    requires { (length w.old ≡ site_words) × (length t.now ≡ table_bytes) }
    ensures { Turns (λ (s : Site). replaced_at s l (wanted_of subscribing e time) (status_sought (table_of t.now) component e)) w.old w.new }
{
    let x = wanted(subscribing, e, time);
    let status = packet_lookup::status(t, component, e);
    match status {
        Sought::Is(k) => store_site::items::put_subscription(w, place(l, k), x),
        Sought::Nothing => {}
    }
}

// A link has one subscription per status: a new one replaces it.
fn replaced(
    w: &mut [u64],
    t: &[u8],
    subscribing: bool,
    l: u16,
    time: u64,
    component: u8,
    entries: [StatusEntry; 16],
    count: usize,
)
    requires { (length w.old ≡ site_words) × (length t.now ≡ table_bytes) }
    ensures { (ps : List ℕ) → MovesIn (table_of t.now) (λ (s : Site). replaced_of subscribing s l time component entries count) ps ps w.old w.new }
{
    for i in 0..count {
        let e = packet_lookup::entry_in(entries, i);
        replace(w, t, subscribing, l, time, component, e);
    }
}

fn issue_of(p: &mut [u64], w: &mut [u64], l: u16, time: u64, k: u8)
    requires { (length p.old ≡ pool_words) × (length w.old ≡ site_words) }
    ensures { Moves (λ (s : Site). issued_in s (record_of s l time (Sought.Is k))) p.old p.new w.old w.new }
{
    let v = store_site::items::status(w, k as usize);
    store_call::add(p, w, store_call::records::status(w, v, l, k as u16, time));
}

fn issue(p: &mut [u64], w: &mut [u64], t: &[u8], l: u16, time: u64, component: u8, e: StatusEntry)
    requires { (length p.old ≡ pool_words) × (length w.old ≡ site_words) × (length t.now ≡ table_bytes) }
    ensures { Moves (λ (s : Site). issued_in s (record_of s l time (status_sought (table_of t.now) component e))) p.old p.new w.old w.new }
{
    let status = packet_lookup::status(t, component, e);
    match status {
        Sought::Is(k) => issue_of(p, w, l, time, k),
        Sought::Nothing => {}
    }
}

// A subscription issues a record at once, entries in order.
fn records(
    p: &mut [u64],
    w: &mut [u64],
    t: &[u8],
    l: u16,
    time: u64,
    component: u8,
    entries: [StatusEntry; 16],
    count: usize,
)
    requires { (length p.old ≡ pool_words) × (length w.old ≡ site_words) × (length t.now ≡ table_bytes) }
    ensures { MovesIn (table_of t.now) (λ (s : Site). issued_in s (records_of s l time component entries count)) p.old p.new w.old w.new }
{
    for i in 0..count {
        let e = packet_lookup::entry_in(entries, i);
        issue(p, w, t, l, time, component, e);
    }
}

// Every entry is done. Replacing changes nothing that a record tells.
fn turn(
    p: &mut [u64],
    w: &mut [u64],
    t: &[u8],
    subscribing: bool,
    l: u16,
    time: u64,
    component: u8,
    entries: [StatusEntry; 16],
    count: usize,
)
    requires { (length p.old ≡ pool_words) × (length w.old ≡ site_words) × (length t.now ≡ table_bytes) }
    ensures { MovesIn (table_of t.now) (λ (s : Site). issued_in (replaced_of subscribing s l time component entries count) (pick subscribing (records_of s l time component entries count) [])) p.old p.new w.old w.new }
{
    replaced(w, t, subscribing, l, time, component, entries, count);
    if subscribing {
        records(p, w, t, l, time, component, entries, count);
    }
}

// How many records are issued where every entry is a status.
fn number(subscribing: bool, count: usize) -> u64
    ensures { result ≡ pick subscribing count 0 }
{
    if subscribing { count as u64 } else { 0 }
}

// All entries are statuses of the component.
fn change(
    p: &mut [u64],
    w: &mut [u64],
    t: &[u8],
    subscribing: bool,
    q: Question,
    component: u8,
    f: StatusFields,
    out: &mut [u8],
) -> Answer
    requires { (length p.old ≡ pool_words) × (length w.old ≡ site_words) × (length t.now ≡ table_bytes) × (all_statuses (table_of t.now) component f.entries f.count ≡ true) }
    ensures { GivesIn (table_of t.now) q.time never (changed subscribing (site_of p.old w.old (table_of t.now)) q f component).plan p.old p.new w.old w.new out.old out.new result }
{
    if store_call::spent(w, number(subscribing, f.count)) {
        return Answer::Refused(Refusal::SequenceSpent);
    }
    let end = packet_answer::ack(q, out);
    let entries = f.entries;
    turn(
        p,
        w,
        t,
        subscribing,
        q.link,
        q.time,
        component,
        entries,
        f.count,
    );
    packet_answer::done(w, q.time, 0, 0, end, 0)
}

fn judge(
    p: &mut [u64],
    w: &mut [u64],
    t: &[u8],
    subscribing: bool,
    q: Question,
    component: u8,
    f: StatusFields,
    out: &mut [u8],
) -> Answer
    requires { (length p.old ≡ pool_words) × (length w.old ≡ site_words) × (length t.now ≡ table_bytes) }
    ensures { GivesIn (table_of t.now) q.time never (judged subscribing (site_of p.old w.old (table_of t.now)) q f component).plan p.old p.new w.old w.new out.old out.new result }
{
    let entries = f.entries;
    if packet_lookup::all_statuses(t, component, entries, f.count) {
        return change(p, w, t, subscribing, q, component, f, out);
    }
    packet_answer::not_ack(w, q, reasons::UNKNOWN_STATUS, out)
}

fn ask(
    p: &mut [u64],
    w: &mut [u64],
    t: &[u8],
    subscribing: bool,
    q: Question,
    f: StatusFields,
    out: &mut [u8],
) -> Answer
    requires { (length p.old ≡ pool_words) × (length w.old ≡ site_words) × (length t.now ≡ table_bytes) }
    ensures { GivesIn (table_of t.now) q.time never (asked subscribing (site_of p.old w.old (table_of t.now)) q f (component_sought (table_of t.now) f.component)).plan p.old p.new w.old w.new out.old out.new result }
{
    let id = f.component;
    let component = packet_lookup::component(t, id);
    match component {
        Sought::Is(c) => judge(p, w, t, subscribing, q, c, f, out),
        Sought::Nothing => packet_answer::not_ack(w, q, reasons::UNKNOWN_STATUS, out),
    }
}

fn take(
    p: &mut [u64],
    w: &mut [u64],
    t: &[u8],
    subscribing: bool,
    q: Question,
    f: StatusFields,
    out: &mut [u8],
) -> Answer
    requires { (length p.old ≡ pool_words) × (length w.old ≡ site_words) × (length t.now ≡ table_bytes) }
    ensures { GivesIn (table_of t.now) q.time never (subscribing_taken subscribing (site_of p.old w.old (table_of t.now)) q f).plan p.old p.new w.old w.new out.old out.new result }
{
    let v = f.verdict;
    match v {
        Verdict::Good => ask(p, w, t, subscribing, q, f, out),
        Verdict::Missing => packet_answer::not_ack(w, q, reasons::MISSING_ELEMENT, out),
        Verdict::Bad => packet_answer::not_ack(w, q, reasons::BAD_VALUE, out),
    }
}

fn asking_by(major: u32, minor: u32, patch: u32) -> Asking
    ensures { result ≡ asking_by major minor patch }
{
    if major == 3 && minor == 1 && patch == 4 {
        Asking::Older
    } else {
        Asking::Full
    }
}

// How a subscription's entries are read on a link.
fn asking_on(w: &[u64], l: u16) -> Asking
    requires { (length w.now ≡ site_words) × (l < 4) }
    ensures { (ps : List ℕ) (t : SiteTable) → result ≡ asking_on (link_at (site_of ps w.now t) l) }
{
    asking_by(
        store_site::phases::major(w, l as usize),
        store_site::phases::minor(w, l as usize),
        store_site::phases::patch(w, l as usize),
    )
}

// StatusSubscribe.
pub fn subscribe(
    p: &mut [u64],
    w: &mut [u64],
    t: &[u8],
    q: Question,
    packet: &[u8],
    places: &[usize],
    out: &mut [u8],
) -> Answer
    requires { (length p.old ≡ pool_words) × (length w.old ≡ site_words) × (length t.now ≡ table_bytes) × (q.link < 4) × Indexed packet.now places.now }
    ensures { GivesIn (table_of t.now) q.time never (subscribing_taken true (site_of p.old w.old (table_of t.now)) q (fields_at (asking_on (link_at (site_of p.old w.old (table_of t.now)) q.link)) packet.now)).plan p.old p.new w.old w.new out.old out.new result }
{
    let asking = asking_on(w, q.link);
    let f = read_lists::read_status(packet, places, asking);
    take(p, w, t, true, q, f, out)
}

// StatusUnsubscribe.
pub fn unsubscribe(
    p: &mut [u64],
    w: &mut [u64],
    t: &[u8],
    q: Question,
    packet: &[u8],
    places: &[usize],
    out: &mut [u8],
) -> Answer
    requires { (length p.old ≡ pool_words) × (length w.old ≡ site_words) × (length t.now ≡ table_bytes) × Indexed packet.now places.now }
    ensures { GivesIn (table_of t.now) q.time never (subscribing_taken false (site_of p.old w.old (table_of t.now)) q (fields_at Asking.Plain packet.now)).plan p.old p.new w.old w.new out.old out.new result }
{
    let f = read_lists::read_status(packet, places, Asking::Plain);
    take(p, w, t, false, q, f, out)
}
