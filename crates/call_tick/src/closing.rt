// Each link with one awaited 30,000 ms or longer is closed.
ghost use Rattle.std.specs.Prelude.{◌≡◌, ℕ, ◌<◌, List, length};
ghost use Rattle.table_whole.specs.declared.SiteTable.{SiteTable};
ghost use Rattle.site.specs.declared.Site.{Site};
ghost use Rattle.store_site.specs.Layout.{site_of, pool_words, site_words};
ghost use Rattle.store_site.specs.Turns.{Moves};
ghost use Rattle.call_tick.specs.Closing.{late_at, close_late, closed_to, late_mask, mask_to};

fn late(w: &[u64], l: u16, time: u64) -> bool
    requires { (length w.now ≡ site_words) × (l < 4) }
    ensures { (ps : List ℕ) (t : SiteTable) → result ≡ late_at (site_of ps w.now t) l time }
{
    let k = store_site::parts::link(w, l as usize);
    k.late(time)
}

// Its bit where it is closed.
fn close_late(p: &mut [u64], w: &mut [u64], l: u16, time: u64) -> u16
    requires { (length p.old ≡ pool_words) × ((length w.old ≡ site_words) × (l < 4)) }
    ensures { Moves (λ (s : Site). close_late s l time) p.old p.new w.old w.new × ((t : SiteTable) → result ≡ late_mask (site_of p.old w.old t) l time) }
{
    if late(w, l, time) {
        store_call::close(p, w, l);
        return site::bit_of(l);
    }
    0
}

// The links that are closed.
pub fn close_all(p: &mut [u64], w: &mut [u64], time: u64) -> u16
    requires { (length p.old ≡ pool_words) × (length w.old ≡ site_words) }
    ensures { Moves (λ (s : Site). closed_to s time 4) p.old p.new w.old w.new × ((t : SiteTable) → result ≡ mask_to (site_of p.old w.old t) time 4) }
{
    let a = close_late(p, w, 0, time);
    let b = close_late(p, w, 1, time);
    let c = close_late(p, w, 2, time);
    let d = close_late(p, w, 3, time);
    a + b + c + d
}
