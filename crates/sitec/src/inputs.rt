// The inputs of the host, and the passing of time.
ghost use Rattle.std.specs.Prelude.{ltb};
ghost use Rattle.table_whole.specs.declared.SiteTable.{SiteTable};
ghost use Rattle.call_input.specs.Inputs.{alarm_step, status_step, aggregated_step};
ghost use Rattle.call_tick.specs.Tick.{tick_step};
ghost use Rattle.store_site.specs.Layout.{site_of};
ghost use Rattle.store_table.specs.Layout.{table_of};
ghost use Rattle.sitec.specs.Lent.{Words, WordsAndTable, Called};

use super::Outcome;

// The alarm's input: active where `active` is not 0.
pub fn rsmp_lent_alarm(
    p: &mut [u64],
    w: &mut [u64],
    t: &[u8],
    number: u32,
    active: u32,
    time: u64,
) -> Outcome
    ensures { Called (WordsAndTable p.old w.old t.now) (table_of t.now) (alarm_step (site_of p.old w.old (table_of t.now)) number (ltb 0 active) time) p.old p.new w.old w.new result }
{
    if p.len() != store_site::POOL_WORDS {
        return super::misfit();
    }
    if w.len() != store_site::WORDS {
        return super::misfit();
    }
    if t.len() != store_table::BYTES {
        return super::misfit();
    }
    super::outcome_of(call_input::alarm(p, w, t, number, 0 < active, time))
}

pub fn rsmp_lent_status(
    p: &mut [u64],
    w: &mut [u64],
    t: &[u8],
    number: u32,
    value: i32,
    time: u64,
) -> Outcome
    ensures { Called (WordsAndTable p.old w.old t.now) (table_of t.now) (status_step (site_of p.old w.old (table_of t.now)) number value time) p.old p.new w.old w.new result }
{
    if p.len() != store_site::POOL_WORDS {
        return super::misfit();
    }
    if w.len() != store_site::WORDS {
        return super::misfit();
    }
    if t.len() != store_table::BYTES {
        return super::misfit();
    }
    super::outcome_of(call_input::status(p, w, t, number, value, time))
}

pub fn rsmp_lent_aggregated(p: &mut [u64], w: &mut [u64], value: u8, time: u64) -> Outcome
    ensures { (t : SiteTable) → Called (Words p.old w.old) t (aggregated_step (site_of p.old w.old t) value time) p.old p.new w.old w.new result }
{
    if p.len() != store_site::POOL_WORDS {
        return super::misfit();
    }
    if w.len() != store_site::WORDS {
        return super::misfit();
    }
    super::outcome_of(call_input::aggregated(p, w, value, time))
}

pub fn rsmp_lent_tick(p: &mut [u64], w: &mut [u64], time: u64) -> Outcome
    ensures { (t : SiteTable) → Called (Words p.old w.old) t (tick_step (site_of p.old w.old t) time) p.old p.new w.old w.new result }
{
    if p.len() != store_site::POOL_WORDS {
        return super::misfit();
    }
    if w.len() != store_site::WORDS {
        return super::misfit();
    }
    super::outcome_of(call_tick::tick(p, w, time))
}
