// The site after a message went out, in place.
#![tactic(auto)]

ghost use Rattle.std.specs.Prelude.{◌≡◌, ◌<◌, length};
ghost use Rattle.table_whole.specs.declared.SiteTable.{SiteTable};
ghost use Rattle.site.specs.declared.Site.{Site};
ghost use Rattle.store_site.specs.Layout.{site_of, pool_in, pool_words, site_words};
ghost use Rattle.store_site.specs.Turns.{Turns, Moves};
ghost use Rattle.send_after.specs.Outgoing.{marked, same_event, carried_of, carried_at, message_out, version_sent, watchdog_sent, aggregated_sent, alarm_sent_with, alarm_sent, entry_sent};

use entry::Entry;
use identity::Identity;
use link::Link;
use pool::Sought;

// What a message carries: the held record of this number, or none.
#[derive(Clone, Copy)]
pub enum Carried {
    Held(u32),
    NoRecord,
}

// Whether a record is of the same event, states and time.
fn same_event(x: Entry, e: Entry) -> bool
    ensures { result ≡ same_event x e }
{
    x.time == e.time && x.flags == e.flags
}

fn carried_of(e: Entry, newest: Sought) -> Carried
    ensures { result ≡ carried_of e newest }
{
    match newest {
        Sought::Found(x) if same_event(x.entry, e) => Carried::Held(x.entry.sequence),
        _ => Carried::NoRecord,
    }
}

// What the message of alarm k carries in the first pass of link l.
fn first_pass(p: &[u64], w: &[u64], l: u16, k: u16) -> Carried
    requires { (length p.now ≡ pool_words) × (length w.now ≡ site_words) }
    ensures { (t : SiteTable) → result ≡ carried_at (site_of p.now w.now t) l k }
{
    let a = store_site::items::alarm(w, k as usize);
    let owner = store_site::head::owner(w, l);
    carried_of(
        a.issued(owner, k),
        store_pool::read::newest_alarm(p, owner, k),
    )
}

fn message_out(k: Link, id: Identity, time: u64, c: Carried) -> Link
    ensures { result ≡ message_out k id time c }
{
    match c {
        Carried::Held(q) => k.entry_out(id, time, q),
        Carried::NoRecord => k.other_out(id, time),
    }
}

// A record that is sent stays held.
fn mark(p: &mut [u64], owner: u16, c: Carried)
    requires { length p.old ≡ pool_words }
    ensures { pool_in p.new ≡ marked (pool_in p.old) owner c }
{
    match c {
        Carried::Held(q) => store_pool::change::mark_sent(p, owner, q),
        Carried::NoRecord => {}
    }
}

pub fn version(w: &mut [u64], l: u16, time: u64, id: Identity)
    requires { (length w.old ≡ site_words) × (l < 4) }
    ensures { Turns (λ (s : Site). version_sent s l time id) w.old w.new }
{
    let k = store_site::parts::link(w, l as usize);
    store_site::parts::put_link(w, l as usize, k.version_out(id, time));
}

pub fn watchdog(w: &mut [u64], l: u16, time: u64, id: Identity)
    requires { (length w.old ≡ site_words) × (l < 4) }
    ensures { Turns (λ (s : Site). watchdog_sent s l time id) w.old w.new }
{
    let k = store_site::parts::link(w, l as usize);
    store_site::parts::put_link(w, l as usize, k.watchdog_out(id, time));
}

// The first pass: its AggregatedStatus.
pub fn aggregated(w: &mut [u64], l: u16, time: u64, id: Identity)
    requires { (length w.old ≡ site_words) × (l < 4) }
    ensures { Turns (λ (s : Site). aggregated_sent s l time id) w.old w.new }
{
    let k = store_site::parts::link(w, l as usize);
    let next = k.other_out(id, time);
    store_site::parts::put_link(w, l as usize, next.aggregated_passed());
}

fn alarm_with(c: Carried, p: &mut [u64], w: &mut [u64], l: u16, time: u64, id: Identity)
    requires { (length p.old ≡ pool_words) × ((length w.old ≡ site_words) × (l < 4)) }
    ensures { Moves (λ (s : Site). alarm_sent_with c s l time id) p.old p.new w.old w.new }
{
    let k = store_site::parts::link(w, l as usize);
    let next = message_out(k, id, time, c);
    mark(p, store_site::head::owner(w, l), c);
    store_site::parts::put_link(w, l as usize, next.alarm_passed());
}

// The first pass: alarm k.
pub fn alarm(p: &mut [u64], w: &mut [u64], l: u16, time: u64, id: Identity, k: u16)
    requires { (length p.old ≡ pool_words) × ((length w.old ≡ site_words) × (l < 4)) }
    ensures { Moves (λ (s : Site). alarm_sent s l time id k) p.old p.new w.old w.new }
{
    let c = first_pass(p, w, l, k);
    alarm_with(c, p, w, l, time, id);
}

// The held record of this number.
pub fn entry(p: &mut [u64], w: &mut [u64], l: u16, time: u64, id: Identity, sequence: u32)
    requires { (length p.old ≡ pool_words) × ((length w.old ≡ site_words) × (l < 4)) }
    ensures { Moves (λ (s : Site). entry_sent s l time id sequence) p.old p.new w.old w.new }
{
    store_pool::change::mark_sent(p, store_site::head::owner(w, l), sequence);
    let k = store_site::parts::link(w, l as usize);
    store_site::parts::put_link(w, l as usize, k.entry_out(id, time, sequence));
}
