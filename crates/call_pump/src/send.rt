// The due message written, then the change, then the time.
ghost use Rattle.std.specs.Prelude.{◌≡◌, ℕ, ◌%◌, ◌<◌, List, length};
ghost use Rattle.answer.specs.declared.Answer.TheVariants.{Done as done_with};
ghost use Rattle.pool.specs.Pool.{oldest_unsent};
ghost use Rattle.table_whole.specs.declared.SiteTable.{SiteTable};
ghost use Rattle.site.specs.declared.Site.{Site};
ghost use Rattle.site.specs.Site.{owner_of};
ghost use Rattle.site.specs.Call.{never};
ghost use Rattle.send_after.specs.Outgoing.{entry_sent};
ghost use Rattle.send_message.specs.Sending.{entry_message};
ghost use Rattle.store_site.specs.Layout.{site_of, with_last, pool_words, site_words};
ghost use Rattle.store_site.specs.Turns.{Turns};
ghost use Rattle.store_table.specs.Layout.{table_of, table_bytes};
ghost use Rattle.store_call.specs.Called.{GivesIn};
ghost use Rattle.call_pump.specs.Pump.{sends, version_plan, watchdog_plan, aggregated_plan, alarm_plan, entry_plan, pump_plan};

use super::checks;
use answer::{Answer, Report};
use entry::Entry;
use identity::Identity;
use link::Due;
use pool::Sought;

// The call is done: nothing issued, nothing closed, written up to `end`.
fn finish(w: &mut [u64], time: u64, end: usize) -> Answer
    requires { length w.old ≡ site_words }
    ensures report { result ≡ done_with (record { hint = 0; written = end % 4294967296; closed = 0; hinted = 0; commands = 0 }) }
    ensures turns { Turns (λ (s : Site). with_last s time) w.old w.new }
{
    store_site::parts::put_last(w, time);
    Answer::Done(Report {
        hint: 0,
        written: (end % 4294967296) as u32,
        closed: 0,
        hinted: 0,
        commands: 0,
    })
}

fn version(w: &mut [u64], t: &[u8], l: u16, time: u64, id: Identity, out: &mut [u8]) -> Answer
    requires { (length w.old ≡ site_words) × ((length t.now ≡ table_bytes) × (l < 4)) }
    ensures { (ps : List ℕ) → GivesIn (table_of t.now) time never (version_plan (site_of ps w.old (table_of t.now)) l time id) ps ps w.old w.new out.old out.new result }
{
    let own = store_table::site_id(t);
    let sxl = store_table::sxl(t);
    let end = write_message::greeting::version(out, 0, id, own, sxl);
    send_after::version(w, l, time, id);
    finish(w, time, end)
}

fn watchdog(w: &mut [u64], l: u16, time: u64, id: Identity, out: &mut [u8]) -> Answer
    requires { (length w.old ≡ site_words) × (l < 4) }
    ensures { (ps : List ℕ) (x : SiteTable) → GivesIn x time never (watchdog_plan (site_of ps w.old x) l time id) ps ps w.old w.new out.old out.new result }
{
    let end = write_message::greeting::watchdog(out, 0, id, time);
    send_after::watchdog(w, l, time, id);
    finish(w, time, end)
}

fn aggregated(w: &mut [u64], t: &[u8], l: u16, time: u64, id: Identity, out: &mut [u8]) -> Answer
    requires { (length w.old ≡ site_words) × ((length t.now ≡ table_bytes) × (l < 4)) }
    ensures { (ps : List ℕ) → GivesIn (table_of t.now) time never (aggregated_plan (site_of ps w.old (table_of t.now)) l time id) ps ps w.old w.new out.old out.new result }
{
    let end = send_message::write_aggregated(out, 0, w, t, id);
    send_after::aggregated(w, l, time, id);
    finish(w, time, end)
}

fn alarm(
    p: &mut [u64],
    w: &mut [u64],
    t: &[u8],
    l: u16,
    time: u64,
    id: Identity,
    k: u16,
    out: &mut [u8],
) -> Answer
    requires { (length p.old ≡ pool_words) × ((length w.old ≡ site_words) × ((length t.now ≡ table_bytes) × (l < 4))) }
    ensures { GivesIn (table_of t.now) time never (alarm_plan (site_of p.old w.old (table_of t.now)) l time id k) p.old p.new w.old w.new out.old out.new result }
{
    let end = send_message::write_alarm(out, 0, w, t, id, k as usize);
    send_after::alarm(p, w, l, time, id, k);
    finish(w, time, end)
}

fn entry(
    p: &mut [u64],
    w: &mut [u64],
    t: &[u8],
    l: u16,
    time: u64,
    id: Identity,
    e: Entry,
    out: &mut [u8],
) -> Answer
    requires { (length p.old ≡ pool_words) × ((length w.old ≡ site_words) × ((length t.now ≡ table_bytes) × (l < 4))) }
    ensures { GivesIn (table_of t.now) time never (sends (entry_sent (site_of p.old w.old (table_of t.now)) l time id e.sequence) (entry_message (site_of p.old w.old (table_of t.now)) id.bytes e)) p.old p.new w.old w.new out.old out.new result }
{
    let end = send_message::write_entry(out, 0, t, id, e);
    send_after::entry(p, w, l, time, id, e.sequence);
    finish(w, time, end)
}

fn found(
    x: Sought,
    p: &mut [u64],
    w: &mut [u64],
    t: &[u8],
    l: u16,
    time: u64,
    id: Identity,
    out: &mut [u8],
) -> Answer
    requires { (length p.old ≡ pool_words) × ((length w.old ≡ site_words) × ((length t.now ≡ table_bytes) × (l < 4))) }
    ensures { GivesIn (table_of t.now) time never (entry_plan x (site_of p.old w.old (table_of t.now)) l time id) p.old p.new w.old w.new out.old out.new result }
{
    match x {
        Sought::Nothing => finish(w, time, 0),
        Sought::Found(place) => {
            let e = place.entry;
            entry(p, w, t, l, time, id, e, out)
        }
    }
}

fn oldest(
    p: &mut [u64],
    w: &mut [u64],
    t: &[u8],
    l: u16,
    time: u64,
    id: Identity,
    out: &mut [u8],
) -> Answer
    requires { (length p.old ≡ pool_words) × ((length w.old ≡ site_words) × ((length t.now ≡ table_bytes) × (l < 4))) }
    ensures { GivesIn (table_of t.now) time never (entry_plan (oldest_unsent (site_of p.old w.old (table_of t.now)).pool (owner_of (site_of p.old w.old (table_of t.now)) l)) (site_of p.old w.old (table_of t.now)) l time id) p.old p.new w.old w.new out.old out.new result }
{
    let owner = store_site::head::owner(w, l);
    found(
        store_pool::read::oldest_unsent(p, owner),
        p,
        w,
        t,
        l,
        time,
        id,
        out,
    )
}

pub fn due(
    p: &mut [u64],
    w: &mut [u64],
    t: &[u8],
    l: u16,
    time: u64,
    id: Identity,
    out: &mut [u8],
) -> Answer
    requires { (length p.old ≡ pool_words) × ((length w.old ≡ site_words) × ((length t.now ≡ table_bytes) × (l < 4))) }
    ensures { GivesIn (table_of t.now) time never (pump_plan (site_of p.old w.old (table_of t.now)) l time id) p.old p.new w.old w.new out.old out.new result }
{
    match checks::due_at(p, w, t, l, time) {
        Due::Nothing => finish(w, time, 0),
        Due::Version => version(w, t, l, time, id, out),
        Due::Watchdog => watchdog(w, l, time, id, out),
        Due::Aggregated => aggregated(w, t, l, time, id, out),
        Due::Alarm(k) => alarm(p, w, t, l, time, id, k as u16, out),
        Due::Entry => oldest(p, w, t, l, time, id, out),
    }
}
