// Connect and disconnect.
ghost use Rattle.table_whole.specs.declared.SiteTable.{SiteTable};
ghost use Rattle.call_link.specs.Connect.{connect_step, disconnect_step};
ghost use Rattle.store_site.specs.Layout.{site_of};
ghost use Rattle.sitec.specs.Lent.{Words, Called};

use super::Outcome;

pub fn rsmp_lent_connect(p: &[u64], w: &mut [u64], link: u32, time: u64) -> Outcome
    ensures { (t : SiteTable) → Called (Words p.now w.old) t (connect_step (site_of p.now w.old t) link time) p.now p.now w.old w.new result }
{
    if p.len() != store_site::POOL_WORDS {
        return super::misfit();
    }
    if w.len() != store_site::WORDS {
        return super::misfit();
    }
    super::outcome_of(call_link::connect(w, link, time))
}

pub fn rsmp_lent_disconnect(p: &mut [u64], w: &mut [u64], link: u32, time: u64) -> Outcome
    ensures { (t : SiteTable) → Called (Words p.old w.old) t (disconnect_step (site_of p.old w.old t) link time) p.old p.new w.old w.new result }
{
    if p.len() != store_site::POOL_WORDS {
        return super::misfit();
    }
    if w.len() != store_site::WORDS {
        return super::misfit();
    }
    super::outcome_of(call_link::disconnect(p, w, link, time))
}
