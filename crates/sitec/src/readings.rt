// What a host reads of a site.
ghost use Rattle.site.specs.declared.Site.{Site};
ghost use Rattle.call_read.specs.Readings.{held_at, lost_at, phase_at, version_at, record_at, no_version, no_reading};
ghost use Rattle.sitec.specs.Lent.{Read};

use call_read::ChosenVersion;
use pool::Reading;

// How many records of the link are held.
pub fn rsmp_lent_held(p: &[u64], w: &[u64], link: u32) -> u64
    ensures { Read (λ (s : Site). held_at s link) 0 p.now w.now result }
{
    if p.len() != store_site::POOL_WORDS {
        return 0;
    }
    if w.len() != store_site::WORDS {
        return 0;
    }
    call_read::held(p, w, link)
}

// How many records the link lost since start.
pub fn rsmp_lent_lost(p: &[u64], w: &[u64], link: u32) -> u64
    ensures { Read (λ (s : Site). lost_at s link) 0 p.now w.now result }
{
    if p.len() != store_site::POOL_WORDS {
        return 0;
    }
    if w.len() != store_site::WORDS {
        return 0;
    }
    call_read::lost(p, w, link)
}

// 0 Down, 1 Greeting, 2 Beating, 3 Up.
pub fn rsmp_lent_phase(p: &[u64], w: &[u64], link: u32) -> u32
    ensures { Read (λ (s : Site). phase_at s link) 0 p.now w.now result }
{
    if p.len() != store_site::POOL_WORDS {
        return 0;
    }
    if w.len() != store_site::WORDS {
        return 0;
    }
    call_read::phase(w, link)
}

// The version chosen in this life of the link; zeros before.
pub fn rsmp_lent_version_of(p: &[u64], w: &[u64], link: u32) -> ChosenVersion
    ensures { Read (λ (s : Site). version_at s link) no_version p.now w.now result }
{
    if p.len() != store_site::POOL_WORDS {
        return ChosenVersion {
            major: 0,
            minor: 0,
            patch: 0,
        };
    }
    if w.len() != store_site::WORDS {
        return ChosenVersion {
            major: 0,
            minor: 0,
            patch: 0,
        };
    }
    call_read::version_of(w, link)
}

// The sixteen bytes of the held record of the link with so many older ones.
pub fn rsmp_lent_record(p: &[u64], w: &[u64], link: u32, rank: u64) -> Reading
    ensures { Read (λ (s : Site). record_at s link rank) no_reading p.now w.now result }
{
    if p.len() != store_site::POOL_WORDS {
        return Reading {
            found: false,
            bytes: [0; 16],
        };
    }
    if w.len() != store_site::WORDS {
        return Reading {
            found: false,
            bytes: [0; 16],
        };
    }
    call_read::record_at(p, w, link, rank)
}
