// What the calls in place share: their records issued one by one, a link closed.
#![tactic(auto)]

ghost use Rattle.std.specs.Prelude.{◌≡◌, List, [], ◌∷◌, ℕ, ◌<◌, length};
ghost use Rattle.entry.specs.declared.Entry.{Entry};
ghost use Rattle.pool_laws.specs.Batch.{under};
ghost use Rattle.table_whole.specs.declared.SiteTable.{SiteTable};
ghost use Rattle.site.specs.declared.Site.{Site};
ghost use Rattle.site.specs.Site.{close_at};
ghost use Rattle.store_site.specs.Layout.{site_of, pool_words, site_words};
ghost use Rattle.store_site.specs.Turns.{Moves};
ghost use Rattle.store_call.specs.Issued.{batch_in, issued_in};

use entry::Entry;
use link::Link;

pub mod records; // records.rt: the record of a status, the record of an alarm's change

// Number 10: whether one of so many records takes a number past 2147483647.
pub fn spent(w: &[u64], n: u64) -> bool
    requires { length w.now ≡ site_words }
    ensures { (ps : List ℕ) (t : SiteTable) (es : List Entry) → length es ≡ n → result ≡ (batch_in (site_of ps w.now t) es).spent }
{
    if n == 0 {
        return false;
    }
    let next = store_site::parts::next(w);
    2147483648 < next || 2147483648 - next < n
}

// The record under a number, of which 31 bits are kept.
fn numbered(e: Entry, next: u64) -> Entry
    ensures { result ≡ under e next }
{
    Entry {
        sequence: (next % 2147483648) as u32,
        ..e
    }
}

// A record is issued under the next number, whatever number it has.
pub fn add(p: &mut [u64], w: &mut [u64], e: Entry)
    requires { (length p.old ≡ pool_words) × (length w.old ≡ site_words) }
    ensures { Moves (λ (s : Site). issued_in s (e ∷ [])) p.old p.new w.old w.new }
{
    let next = store_site::parts::next(w);
    store_pool::issue::issue(p, numbered(e, next));
    store_site::parts::put_next(w, store_pool::issue::more(next));
}

// The link is Down, nothing is awaited on it, and no record of it is marked sent.
pub fn close(p: &mut [u64], w: &mut [u64], l: u16)
    requires { (length p.old ≡ pool_words) × ((length w.old ≡ site_words) × (l < 4)) }
    ensures { Moves (λ (s : Site). close_at s l) p.old p.new w.old w.new }
{
    store_pool::change::unmark(p, store_site::head::owner(w, l));
    store_site::parts::put_link(w, l as usize, Link::closed());
}
