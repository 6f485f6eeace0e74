// What is read of a link straight from its words, for every pool ps and site table t.
ghost use Rattle.std.specs.Prelude.{List, ◌≡◌, ℕ, ◌<◌, length};
ghost use Rattle.basis.specs.Pick.{both};
ghost use Rattle.awaited.specs.Awaited.{find_of, is_awaited};
ghost use Rattle.link.specs.Phase.{phase_of, is_up};
ghost use Rattle.link.specs.Steps.{full_of};
ghost use Rattle.table_whole.specs.declared.SiteTable.{SiteTable};
ghost use Rattle.site.specs.Site.{link_at, down_at};
ghost use Rattle.store_words.specs.Words.{flag};
ghost use Rattle.store_site.specs.Layout.{site_of, site_words};

use identity::Identity;
use link::Phase;

fn all_three(a: u64, b: u64, c: u64) -> bool
    ensures { result ≡ both (flag a) (both (flag b) (flag c)) }
{
    0 < a && 0 < b && 0 < c
}

pub fn phase(w: &[u64], l: usize) -> Phase
    requires { (length w.now ≡ site_words) × (l < 4) }
    ensures { (ps : List ℕ) (t : SiteTable) → result ≡ phase_of (link_at (site_of ps w.now t) l) }
{
    let i = 5 + 75 * l;
    if 0 < w[i + 3] {
        if all_three(w[i + 4], w[i + 5], w[i + 6]) {
            if all_three(w[i + 7], w[i + 8], w[i + 9]) {
                return Phase::Up;
            }
            return Phase::Beating;
        }
        return Phase::Greeting;
    }
    Phase::Down
}

pub fn down(w: &[u64], l: usize) -> bool
    requires { (length w.now ≡ site_words) × (l < 4) }
    ensures { (ps : List ℕ) (t : SiteTable) → result ≡ down_at (site_of ps w.now t) l }
{
    site::is_down(phase(w, l))
}

pub fn up(w: &[u64], l: usize) -> bool
    requires { (length w.now ≡ site_words) × (l < 4) }
    ensures { (ps : List ℕ) (t : SiteTable) → result ≡ is_up (phase_of (link_at (site_of ps w.now t) l)) }
{
    matches!(phase(w, l), Phase::Up)
}

// The time of the last Watchdog.
pub fn beat(w: &[u64], l: usize) -> u64
    requires { (length w.now ≡ site_words) × (l < 4) }
    ensures { (ps : List ℕ) (t : SiteTable) → result ≡ (link_at (site_of ps w.now t) l).beat }
{
    w[5 + 75 * l]
}

// The next alarm of the first pass.
pub fn alarm_next(w: &[u64], l: usize) -> u32
    requires { (length w.now ≡ site_words) × (l < 4) }
    ensures { (ps : List ℕ) (t : SiteTable) → result ≡ (link_at (site_of ps w.now t) l).alarm }
{
    let i = 5 + 75 * l;
    store_words::upper(w[i + 1])
}

pub fn major(w: &[u64], l: usize) -> u32
    requires { (length w.now ≡ site_words) × (l < 4) }
    ensures { (ps : List ℕ) (t : SiteTable) → result ≡ (link_at (site_of ps w.now t) l).major }
{
    let i = 5 + 75 * l;
    store_words::lower(w[i + 1])
}

pub fn minor(w: &[u64], l: usize) -> u32
    requires { (length w.now ≡ site_words) × (l < 4) }
    ensures { (ps : List ℕ) (t : SiteTable) → result ≡ (link_at (site_of ps w.now t) l).minor }
{
    let i = 5 + 75 * l;
    store_words::upper(w[i + 2])
}

pub fn patch(w: &[u64], l: usize) -> u32
    requires { (length w.now ≡ site_words) × (l < 4) }
    ensures { (ps : List ℕ) (t : SiteTable) → result ≡ (link_at (site_of ps w.now t) l).patch }
{
    let i = 5 + 75 * l;
    store_words::lower(w[i + 2])
}

pub fn version_out(w: &[u64], l: usize) -> bool
    requires { (length w.now ≡ site_words) × (l < 4) }
    ensures { (ps : List ℕ) (t : SiteTable) → result ≡ (link_at (site_of ps w.now t) l).versionout }
{
    let i = 5 + 75 * l;
    0 < w[i + 4]
}

pub fn version_taken(w: &[u64], l: usize) -> bool
    requires { (length w.now ≡ site_words) × (l < 4) }
    ensures { (ps : List ℕ) (t : SiteTable) → result ≡ (link_at (site_of ps w.now t) l).versiontaken }
{
    let i = 5 + 75 * l;
    0 < w[i + 6]
}

pub fn watchdog_out(w: &[u64], l: usize) -> bool
    requires { (length w.now ≡ site_words) × (l < 4) }
    ensures { (ps : List ℕ) (t : SiteTable) → result ≡ (link_at (site_of ps w.now t) l).watchdogout }
{
    let i = 5 + 75 * l;
    0 < w[i + 7]
}

pub fn aggregated_out(w: &[u64], l: usize) -> bool
    requires { (length w.now ≡ site_words) × (l < 4) }
    ensures { (ps : List ℕ) (t : SiteTable) → result ≡ (link_at (site_of ps w.now t) l).aggregatedout }
{
    let i = 5 + 75 * l;
    0 < w[i + 10]
}

// Whether it awaits an answer to the identity.
pub fn awaits(w: &[u64], l: usize, id: Identity) -> bool
    requires { (length w.now ≡ site_words) × (l < 4) }
    ensures { (ps : List ℕ) (t : SiteTable) → result ≡ is_awaited (find_of (link_at (site_of ps w.now t) l).awaited id) }
{
    let i = 5 + 75 * l;
    store_link::slots::awaits_at(w, i + 11, id)
}

// Whether it awaits sixteen.
pub fn full(w: &[u64], l: usize) -> bool
    requires { (length w.now ≡ site_words) × (l < 4) }
    ensures { (ps : List ℕ) (t : SiteTable) → result ≡ full_of (link_at (site_of ps w.now t) l) }
{
    let i = 5 + 75 * l;
    store_link::slots::full_at(w, i + 11)
}
