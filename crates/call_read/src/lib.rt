// What a host reads of a site, for every site table; what is no record of its, for every pool ps. Of a link that is not configured: Down, and zeros.
#![tactic(auto)]

ghost use Rattle.std.specs.Prelude.{ℕ, List, ◌≡◌, length};
ghost use Rattle.pool.specs.Pool.{reading_of};
ghost use Rattle.table_whole.specs.declared.SiteTable.{SiteTable};
ghost use Rattle.store_site.specs.Layout.{site_of, pool_words, site_words};
ghost use Rattle.call_read.specs.Readings.{held_at, lost_at, phase_number, phase_at, version_at, record_at};

use link::Phase;
use pool::{Reading, Sought};

// The version that both ends chose; zeros before.
#[repr(C)]
#[derive(Clone, Copy)]
pub struct ChosenVersion {
    pub major: u32,
    pub minor: u32,
    pub patch: u32,
}

// How many records of the link are held.
pub fn held(p: &[u64], w: &[u64], link: u32) -> u64
    requires { (length p.now ≡ pool_words) × (length w.now ≡ site_words) }
    ensures { (t : SiteTable) → result ≡ held_at (site_of p.now w.now t) link }
{
    if store_site::head::no_link(w, link) {
        return 0;
    }
    store_pool::read::held(p, store_site::head::owner(w, link as u16)) as u64
}

// How many records the link lost since start.
pub fn lost(p: &[u64], w: &[u64], link: u32) -> u64
    requires { (length p.now ≡ pool_words) × (length w.now ≡ site_words) }
    ensures { (t : SiteTable) → result ≡ lost_at (site_of p.now w.now t) link }
{
    if store_site::head::no_link(w, link) {
        return 0;
    }
    store_pool::read::lost(p, store_site::head::owner(w, link as u16))
}

fn phase_number(p: Phase) -> u32
    ensures { result ≡ phase_number p }
{
    match p {
        Phase::Down => 0,
        Phase::Greeting => 1,
        Phase::Beating => 2,
        Phase::Up => 3,
    }
}

// 0 Down, 1 Greeting, 2 Beating, 3 Up.
pub fn phase(w: &[u64], link: u32) -> u32
    requires { length w.now ≡ site_words }
    ensures { (ps : List ℕ) (t : SiteTable) → result ≡ phase_at (site_of ps w.now t) link }
{
    if store_site::head::no_link(w, link) {
        return 0;
    }
    phase_number(store_site::phases::phase(w, link as usize))
}

pub fn version_of(w: &[u64], link: u32) -> ChosenVersion
    requires { length w.now ≡ site_words }
    ensures { (ps : List ℕ) (t : SiteTable) → result ≡ version_at (site_of ps w.now t) link }
{
    if store_site::head::no_link(w, link) {
        return ChosenVersion {
            major: 0,
            minor: 0,
            patch: 0,
        };
    }
    let l = link as usize;
    ChosenVersion {
        major: store_site::phases::major(w, l),
        minor: store_site::phases::minor(w, l),
        patch: store_site::phases::patch(w, l),
    }
}

fn reading(s: Sought) -> Reading
    ensures { result ≡ reading_of s }
{
    match s {
        Sought::Nothing => Reading {
            found: false,
            bytes: [0; 16],
        },
        Sought::Found(x) => {
            let bytes = entry::pack(x.entry).bytes;
            Reading { found: true, bytes }
        }
    }
}

// The sixteen bytes of the link's held record than which so many of the link are older.
pub fn record_at(p: &[u64], w: &[u64], link: u32, rank: u64) -> Reading
    requires { (length p.now ≡ pool_words) × (length w.now ≡ site_words) }
    ensures { (t : SiteTable) → result ≡ record_at (site_of p.now w.now t) link rank }
{
    if store_site::head::no_link(w, link) {
        return reading(Sought::Nothing);
    }
    let owner = store_site::head::owner(w, link as u16);
    reading(store_pool::read::ranked(p, owner, rank as usize))
}
