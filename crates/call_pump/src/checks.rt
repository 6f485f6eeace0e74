// What is due, and what refuses the call: all of it read before the first store.
ghost use Rattle.std.specs.Prelude.{◌≡◌, ℕ, ◌*◌, ◌<◌, List, ltb, length};
ghost use Rattle.basis.specs.Pick.{pick};
ghost use Rattle.answer.specs.declared.Answer.TheVariants.{Refused as refused_for};
ghost use Rattle.identity.specs.Version.{identity_of};
ghost use Rattle.awaited.specs.Awaited.{is_awaited};
ghost use Rattle.pool.specs.Pool.{oldest_unsent};
ghost use Rattle.link.specs.declared.Due.TheVariants.{Nothing, Version, Watchdog, Alarm, Entry};
ghost use Rattle.link.specs.Due.{alarms_for, due_up};
ghost use Rattle.site.specs.declared.Site.{Site};
ghost use Rattle.site.specs.Site.{role_of, owner_of, link_at};
ghost use Rattle.store_site.specs.Layout.{site_of, pool_words, site_words};
ghost use Rattle.store_table.specs.Layout.{table_of, table_bytes};
ghost use Rattle.call_pump.specs.Pump.{is_held, due_at, Below, is_nothing, later_of, later_verdict, verdict_of};

use answer::{Answer, Refusal};
use awaited::Found;
use identity::Identity;
use link::{Due, Phase, Role};
use pool::Sought;

pub fn own_identity(random: Identity) -> Identity
    ensures { result ≡ identity_of random }
{
    identity::version4(random)
}

fn is_held(x: Sought) -> bool
    ensures { result ≡ is_held x }
{
    match x {
        Sought::Nothing => false,
        Sought::Found(_) => true,
    }
}

fn milliseconds(seconds: u32) -> u64
    ensures { result ≡ seconds * 1000 }
{
    let wide = seconds as u64;
    wide * 1000
}

// How many alarms the link's first pass goes through. Here and in what follows s is the site in the pool's words, w and t.
fn alarms_for(w: &[u64], t: &[u8], l: u16) -> u16
    requires { (length w.now ≡ site_words) × (length t.now ≡ table_bytes) }
    ensures { (ps : List ℕ) (s : Site) → s ≡ site_of ps w.now (table_of t.now) → result ≡ alarms_for (role_of s l) s.table.alarmcount }
{
    match store_site::head::role(w, l) {
        Role::Primary => store_table::alarm_count(t),
        Role::Secondary => 0,
    }
}

// What is due once the AggregatedStatus is out.
fn due_passing(p: &[u64], w: &[u64], t: &[u8], l: u16) -> Due
    requires { (length p.now ≡ pool_words) × ((length w.now ≡ site_words) × ((length t.now ≡ table_bytes) × (l < 4))) }
    ensures due { (s : Site) → s ≡ site_of p.now w.now (table_of t.now) → result ≡ pick (ltb (link_at s l).alarm (alarms_for (role_of s l) s.table.alarmcount)) (Alarm (link_at s l).alarm) (pick (is_held (oldest_unsent s.pool (owner_of s l))) Entry Nothing) }
    ensures small { Below 65536 result }
{
    let k = store_site::phases::alarm_next(w, l as usize);
    if k < alarms_for(w, t, l) as u32 {
        return Due::Alarm(k);
    }
    if is_held(store_pool::read::oldest_unsent(p, store_site::head::owner(w, l))) {
        return Due::Entry;
    }
    Due::Nothing
}

fn due_up(p: &[u64], w: &[u64], t: &[u8], l: u16, time: u64) -> Due
    requires { (length p.now ≡ pool_words) × ((length w.now ≡ site_words) × ((length t.now ≡ table_bytes) × (l < 4))) }
    ensures due { (s : Site) → s ≡ site_of p.now w.now (table_of t.now) → result ≡ due_up (link_at s l) time s.period (role_of s l) s.table.alarmcount (is_held (oldest_unsent s.pool (owner_of s l))) }
    ensures small { Below 65536 result }
{
    let since = store_site::phases::beat(w, l as usize);
    let span = milliseconds(store_site::head::period(w));
    if awaited::elapsed(since, span, time) {
        return Due::Watchdog;
    }
    if store_site::phases::aggregated_out(w, l as usize) {
        return due_passing(p, w, t, l);
    }
    Due::Aggregated
}

// A Version that is not out yet.
fn due_greeting(out: bool) -> Due
    ensures due { result ≡ pick out Nothing Version }
    ensures small { Below 65536 result }
{
    if out { Due::Nothing } else { Due::Version }
}

// A Watchdog that is not out yet.
fn due_beating(out: bool) -> Due
    ensures due { result ≡ pick out Nothing Watchdog }
    ensures small { Below 65536 result }
{
    if out { Due::Nothing } else { Due::Watchdog }
}

pub fn due_at(p: &[u64], w: &[u64], t: &[u8], l: u16, time: u64) -> Due
    requires { (length p.now ≡ pool_words) × ((length w.now ≡ site_words) × ((length t.now ≡ table_bytes) × (l < 4))) }
    ensures due { result ≡ due_at (site_of p.now w.now (table_of t.now)) l time }
    ensures small { Below 65536 result }
{
    match store_site::phases::phase(w, l as usize) {
        Phase::Down => Due::Nothing,
        Phase::Greeting => due_greeting(store_site::phases::version_out(w, l as usize)),
        Phase::Beating => due_beating(store_site::phases::watchdog_out(w, l as usize)),
        Phase::Up => due_up(p, w, t, l, time),
    }
}

fn is_nothing(d: Due) -> bool
    ensures { result ≡ is_nothing d }
{
    match d {
        Due::Nothing => true,
        Due::Version => false,
        Due::Watchdog => false,
        Due::Aggregated => false,
        Due::Alarm(_) => false,
        Due::Entry => false,
    }
}

fn is_awaited(f: Found) -> bool
    ensures { result ≡ is_awaited f }
{
    match f {
        Found::For(_) => true,
        Found::Nothing => false,
    }
}

fn unless(refuses: bool, why: Refusal, rest: Answer) -> Answer
    ensures { result ≡ pick refuses (refused_for why) rest }
{
    if refuses { Answer::Refused(why) } else { rest }
}

// Numbers 6 to 9, of which these apply.
fn in_order(down: bool, nothing: bool, crowded: bool, awaited: bool) -> Answer
    ensures { result ≡ later_of down nothing crowded awaited }
{
    let fresh = unless(
        awaited,
        Refusal::IdentityAwaited,
        Answer::Done(site::nothing()),
    );
    let seven = Refusal::NothingDue;
    let eight = Refusal::ManyAwaited;
    let due = unless(nothing, seven, unless(crowded, eight, fresh));
    unless(down, Refusal::WrongPhase, due)
}

fn later_verdict(p: &[u64], w: &[u64], t: &[u8], l: u16, time: u64, id: Identity) -> Answer
    requires { (length p.now ≡ pool_words) × ((length w.now ≡ site_words) × ((length t.now ≡ table_bytes) × (l < 4))) }
    ensures { result ≡ later_verdict (site_of p.now w.now (table_of t.now)) l time id }
{
    let down = store_site::phases::down(w, l as usize);
    let nothing = is_nothing(due_at(p, w, t, l, time));
    let k = store_site::parts::link(w, l as usize);
    in_order(down, nothing, k.crowded(), is_awaited(k.awaits(id)))
}

// What the checks answer, in their order.
pub fn verdict(
    p: &[u64],
    w: &[u64],
    t: &[u8],
    link: u32,
    time: u64,
    id: Identity,
    room: usize,
) -> Answer
    requires { (length p.now ≡ pool_words) × ((length w.now ≡ site_words) × (length t.now ≡ table_bytes)) }
    ensures { result ≡ verdict_of (site_of p.now w.now (table_of t.now)) link time id room }
{
    if store_site::head::no_link(w, link) {
        return Answer::Refused(Refusal::NoSuchLink);
    }
    if room < 4096 {
        return Answer::Refused(Refusal::ShortOutput);
    }
    if store_site::head::bad_time(w, time) {
        return Answer::Refused(Refusal::BadTime);
    }
    later_verdict(p, w, t, link as u16, time, id)
}
