// What comes while a link greets and beats, in place: the answers to messages of ours, their Version and their Watchdog.
#![tactic(auto)]

ghost use Rattle.std.specs.Prelude.{List, ◌≡◌, ℕ, ◌<◌, length};
ghost use Rattle.table_whole.specs.declared.SiteTable.{SiteTable};
ghost use Rattle.site.specs.declared.Site.{Site};
ghost use Rattle.site.specs.Call.{never, step_of, hint_time, hint_bit};
ghost use Rattle.json_find.specs.Index.{Indexed};
ghost use Rattle.read_head.specs.Small.{watchdog_at};
ghost use Rattle.read_lists.specs.Version.{version_at};
ghost use Rattle.store_site.specs.Layout.{site_of, pool_words, site_words};
ghost use Rattle.store_site.specs.Turns.{Turns, Moves};
ghost use Rattle.store_table.specs.Layout.{table_of, table_bytes};
ghost use Rattle.store_call.specs.Called.{StepsIn, GivesIn};
ghost use Rattle.packet_greet.specs.Answered.{settled_for, settled as settled_of, answered_plan};
ghost use Rattle.packet_greet.specs.Version.{own_versions, own_sites, own_offer, accepted as accepted_of, version_judged, version_taken};
ghost use Rattle.packet_greet.specs.Watchdog.{hint_from, beaten as beaten_of, beat as beat_of, watchdog_taken};

use answer::Answer;
use awaited::{Found, Purpose};
use identity::Identity;
use label::Label;
use link::Role;
use names::reasons;
use packet_answer::Question;
use read_head::{GotTime, Verdict};
use read_lists::VersionFields;
use read_versions::{Judged, Offer, Sites, Versions};

fn settled_for(p: &mut [u64], w: &[u64], l: u16, sent: Purpose)
    requires { (length p.old ≡ pool_words) × (length w.now ≡ site_words) }
    ensures { Moves (λ (s : Site). settled_for s l sent) p.old p.new w.now w.now }
{
    match sent {
        Purpose::Version => {}
        Purpose::Watchdog => {}
        Purpose::Entry(sequence) => store_pool::change::settle(
            p,
            store_site::head::owner(w, l),
            sequence,
        ),
        Purpose::Other => {}
    }
}

fn settled(p: &mut [u64], w: &[u64], l: u16, found: Found)
    requires { (length p.old ≡ pool_words) × (length w.now ≡ site_words) }
    ensures { Moves (λ (s : Site). settled_of s l found) p.old p.new w.now w.now }
{
    match found {
        Found::Nothing => {}
        Found::For(sent) => settled_for(p, w, l, sent),
    }
}

// MessageAck or MessageNotAck to an awaited identity.
pub fn answered(
    p: &mut [u64],
    w: &mut [u64],
    l: u16,
    time: u64,
    id: Identity,
    acknowledged: bool,
) -> Answer
    requires { (length p.old ≡ pool_words) × (length w.old ≡ site_words) × (l < 4) }
    ensures { (t : SiteTable) → StepsIn t (step_of (site_of p.old w.old t) time never (answered_plan (site_of p.old w.old t) l id acknowledged) 0) p.old p.new w.old w.new result }
{
    let k = store_site::parts::link(w, l as usize);
    let a = k.answered(id, acknowledged);
    if a.closes {
        store_call::close(p, w, l);
        return packet_answer::done(w, time, 0, 0, 0, site::bit_of(l));
    }
    let found = a.found;
    let next = a.link;
    settled(p, w, l, found);
    store_site::parts::put_link(w, l as usize, next);
    packet_answer::done(w, time, 0, 0, 0, 0)
}

fn versions() -> Versions
    ensures { result ≡ own_versions }
{
    let mut list = [0u32; 16];
    list[0] = 0x030200;
    list[1] = 0x030105;
    list[2] = 0x030104;
    Versions { count: 3, list }
}

fn sites(id: Label) -> Sites
    ensures { result ≡ own_sites id }
{
    let mut list = [label::none(); 16];
    list[0] = id;
    Sites { count: 1, list }
}

// What our Version offers.
fn own(t: &[u8]) -> Offer
    requires { length t.now ≡ table_bytes }
    ensures { result ≡ own_offer (table_of t.now) }
{
    let versions = versions();
    let sites = sites(store_table::site_id(t));
    let sxl = store_table::sxl(t);
    Offer {
        versions,
        sites,
        sxl,
    }
}

// The link goes on with the chosen version.
fn accepted(w: &mut [u64], l: u16, v: u32)
    requires { (length w.old ≡ site_words) × (l < 4) }
    ensures { Turns (λ (s : Site). accepted_of s l v) w.old w.new }
{
    let k = store_site::parts::link(w, l as usize);
    store_site::parts::put_link(
        w,
        l as usize,
        k.version_accepted(v / 65536, v / 256 % 256, v % 256),
    );
}

fn version_chosen(w: &mut [u64], q: Question, v: u32, out: &mut [u8]) -> Answer
    requires { (length w.old ≡ site_words) × (q.link < 4) }
    ensures { (ps : List ℕ) (t : SiteTable) → GivesIn t q.time never (version_judged (site_of ps w.old t) q (Judged.Chosen v)).plan ps ps w.old w.new out.old out.new result }
{
    let end = packet_answer::ack(q, out);
    accepted(w, q.link, v);
    packet_answer::done(w, q.time, 0, 0, end, 0)
}

fn version_judged(p: &mut [u64], w: &mut [u64], q: Question, j: Judged, out: &mut [u8]) -> Answer
    requires { (length p.old ≡ pool_words) × (length w.old ≡ site_words) × (q.link < 4) }
    ensures { (t : SiteTable) → GivesIn t q.time never (version_judged (site_of p.old w.old t) q j).plan p.old p.new w.old w.new out.old out.new result }
{
    match j {
        Judged::Chosen(v) => version_chosen(w, q, v, out),
        Judged::RsmpVersion => packet_answer::close(p, w, q, reasons::RSMP_VERSION, out),
        Judged::SiteId => packet_answer::close(p, w, q, reasons::SITE_ID, out),
        Judged::SxlVersion => packet_answer::close(p, w, q, reasons::SXL_VERSION, out),
    }
}

fn version_by(
    p: &mut [u64],
    w: &mut [u64],
    t: &[u8],
    q: Question,
    f: VersionFields,
    out: &mut [u8],
) -> Answer
    requires { (length p.old ≡ pool_words) × (length w.old ≡ site_words) × (length t.now ≡ table_bytes) × (q.link < 4) }
    ensures { GivesIn (table_of t.now) q.time never (version_taken (site_of p.old w.old (table_of t.now)) q f).plan p.old p.new w.old w.new out.old out.new result }
{
    let v = f.verdict;
    match v {
        Verdict::Good => {
            let theirs = f.offer;
            version_judged(p, w, q, read_versions::judge(own(t), theirs), out)
        }
        Verdict::Missing => packet_answer::not_ack(w, q, reasons::MISSING_ELEMENT, out),
        Verdict::Bad => packet_answer::not_ack(w, q, reasons::BAD_VALUE, out),
    }
}

// Version.
pub fn version(
    p: &mut [u64],
    w: &mut [u64],
    t: &[u8],
    q: Question,
    packet: &[u8],
    places: &[usize],
    out: &mut [u8],
) -> Answer
    requires { (length p.old ≡ pool_words) × (length w.old ≡ site_words) × (length t.now ≡ table_bytes) × (q.link < 4) × Indexed packet.now places.now }
    ensures { GivesIn (table_of t.now) q.time never (version_taken (site_of p.old w.old (table_of t.now)) q (version_at packet.now)).plan p.old p.new w.old w.new out.old out.new result }
{
    version_by(p, w, t, q, read_lists::read_version(packet, places), out)
}

// Only the primary's watchdog time is a clock hint, and only with three or more decimals.
fn hint(role: Role, f: GotTime) -> u64
    ensures { result ≡ hint_time (hint_from role f) }
{
    match role {
        Role::Primary => { if 3 <= f.decimals { f.time } else { 0 } }
        Role::Secondary => 0,
    }
}

fn hinted(role: Role, f: GotTime) -> u16
    ensures { result ≡ hint_bit (hint_from role f) }
{
    match role {
        Role::Primary => { if 3 <= f.decimals { 1 } else { 0 } }
        Role::Secondary => 0,
    }
}

fn beaten(w: &mut [u64], l: u16)
    requires { (length w.old ≡ site_words) × (l < 4) }
    ensures { Turns (λ (s : Site). beaten_of s l) w.old w.new }
{
    let k = store_site::parts::link(w, l as usize);
    store_site::parts::put_link(w, l as usize, k.watchdog_taken());
}

fn beat(w: &mut [u64], q: Question, theirs: GotTime, out: &mut [u8]) -> Answer
    requires { (length w.old ≡ site_words) × (q.link < 4) }
    ensures { (ps : List ℕ) (t : SiteTable) → GivesIn t q.time never (beat_of (site_of ps w.old t) q theirs).plan ps ps w.old w.new out.old out.new result }
{
    let role = store_site::head::role(w, q.link);
    let at = hint(role, theirs);
    let bit = hinted(role, theirs);
    let end = packet_answer::ack(q, out);
    beaten(w, q.link);
    packet_answer::done(w, q.time, at, bit, end, 0)
}

fn watchdog_by(w: &mut [u64], q: Question, f: GotTime, out: &mut [u8]) -> Answer
    requires { (length w.old ≡ site_words) × (q.link < 4) }
    ensures { (ps : List ℕ) (t : SiteTable) → GivesIn t q.time never (watchdog_taken (site_of ps w.old t) q f).plan ps ps w.old w.new out.old out.new result }
{
    let v = f.verdict;
    match v {
        Verdict::Good => beat(w, q, f, out),
        Verdict::Missing => packet_answer::not_ack(w, q, reasons::MISSING_ELEMENT, out),
        Verdict::Bad => packet_answer::not_ack(w, q, reasons::BAD_VALUE, out),
    }
}

// Watchdog.
pub fn watchdog(
    w: &mut [u64],
    q: Question,
    packet: &[u8],
    places: &[usize],
    out: &mut [u8],
) -> Answer
    requires { (length w.old ≡ site_words) × (q.link < 4) × Indexed packet.now places.now }
    ensures { (ps : List ℕ) (t : SiteTable) → GivesIn t q.time never (watchdog_taken (site_of ps w.old t) q (watchdog_at packet.now)).plan ps ps w.old w.new out.old out.new result }
{
    watchdog_by(w, q, read_head::read_watchdog(packet, places), out)
}
