// The record of a status for a link, and that of an alarm's change, for every pool ps and site table t.
ghost use Rattle.std.specs.Prelude.{List, ◌≡◌, length, ℕ, ◌+◌, ◌<◌};
ghost use Rattle.basis.specs.Pick.{bit};
ghost use Rattle.table_whole.specs.declared.SiteTable.{SiteTable};
ghost use Rattle.site.specs.declared.Site.{Site};
ghost use Rattle.site.specs.Site.{link_at, owner_of};
ghost use Rattle.site.specs.Records.{status_record};
ghost use Rattle.store_site.specs.Layout.{site_of, pool_words, site_words};
ghost use Rattle.store_site.specs.Turns.{Moves};
ghost use Rattle.store_call.specs.Issued.{issued_in, alarm_records};

use alarm::Changed;
use entry::Entry;
use status::Status;

// Old where link l is not Up.
pub fn status(w: &[u64], x: Status, l: u16, number: u16, time: u64) -> Entry
    requires { length w.now ≡ site_words }
    ensures { (ps : List ℕ) (t : SiteTable) → result ≡ status_record (link_at (site_of ps w.now t) l) x (owner_of (site_of ps w.now t) l) number time }
{
    x.issued(
        store_site::head::owner(w, l),
        number,
        time,
        !store_site::items::up(w, l),
    )
}

// How many records an alarm's change issues: one for the primary, or none.
pub fn of_alarm(w: &[u64], c: Changed) -> u64
    requires { length w.now ≡ site_words }
    ensures { (ps : List ℕ) (t : SiteTable) (k : ℕ) → result ≡ length (alarm_records (site_of ps w.now t) k c) }
{
    u64::from(c.records && store_site::head::has_primary(w))
}

pub fn add_alarm(p: &mut [u64], w: &mut [u64], c: Changed, number: u16)
    requires { (length p.old ≡ pool_words) × (length w.old ≡ site_words) }
    ensures { Moves (λ (s : Site). issued_in s (alarm_records s number c)) p.old p.new w.old w.new }
{
    if of_alarm(w, c) == 0 {
        return;
    }
    let owner = store_site::head::owner(w, store_site::head::primary(w));
    super::add(p, w, c.alarm.issued(owner, number));
}

// One more where one is issued.
pub fn more_if(n: u64, issues: bool) -> u64
    requires { n < 65536 }
    ensures { result ≡ n + bit issues }
{
    n + u64::from(issues)
}
