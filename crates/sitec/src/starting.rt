// A site begins.
ghost use Rattle.sitec.specs.Lent.{Started};

use super::Outcome;

// From the bytes of a site table: site 0 or 1 of its box, or 4294967295 where it is alone; no primary where primary is 4294967295.
pub fn rsmp_lent_start(
    p: &mut [u64],
    w: &mut [u64],
    t: &mut [u8],
    table: &[u8],
    site: u32,
    links: u32,
    primary: u32,
    period: u32,
    first: u64,
    time: u64,
) -> Outcome
    ensures { Started table.now site links primary period first time p.old p.new w.old w.new t.old t.new result }
{
    if p.len() != store_site::POOL_WORDS {
        return super::misfit();
    }
    if w.len() != store_site::WORDS {
        return super::misfit();
    }
    if t.len() != store_table::BYTES {
        return super::misfit();
    }
    super::outcome_of(call_start::start(p, w, t, table, site, links, primary, period, first, time))
}
