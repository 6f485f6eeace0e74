// What C calls: the functions of `sitec`, with their contracts, under the names of rsmp_site.h.
#![tactic(auto)]

ghost use Rattle.std.specs.Prelude.{ltb, length};
ghost use Rattle.table_whole.specs.declared.SiteTable.{SiteTable};
ghost use Rattle.call_input.specs.Inputs.{alarm_step, status_step, aggregated_step};
ghost use Rattle.call_tick.specs.Tick.{tick_step};
ghost use Rattle.store_site.specs.Layout.{site_of};
ghost use Rattle.store_table.specs.Layout.{table_of};
ghost use Rattle.sitec.specs.Lent.{Words, WordsAndTable, Called, WithCommands, Told, Handed, Read, Started};
ghost use Rattle.call_link.specs.Connect.{connect_step, disconnect_step};
ghost use Rattle.identity.specs.Version.{identity_of};
ghost use Rattle.call_pump.specs.Pump.{pump_refuses, pump_plan};
ghost use Rattle.call_packet.specs.Packet.{packet_refuses, packet_taken};
ghost use Rattle.site.specs.declared.Site.{Site};
ghost use Rattle.call_read.specs.Readings.{held_at, lost_at, phase_at, version_at, record_at, no_version, no_reading};

use call_read::ChosenVersion;
use identity::Identity;
use pool::Reading;
use sitec::Outcome;

// The alarm's input: active where `active` is not 0.
#[unsafe(no_mangle)]
pub extern "C" fn rsmp_lent_alarm(
    p: &mut [u64],
    w: &mut [u64],
    t: &[u8],
    number: u32,
    active: u32,
    time: u64,
) -> Outcome
    ensures { Called (WordsAndTable p.old w.old t.now) (table_of t.now) (alarm_step (site_of p.old w.old (table_of t.now)) number (ltb 0 active) time) p.old p.new w.old w.new result }
{
    sitec::inputs::rsmp_lent_alarm(p, w, t, number, active, time)
}

#[unsafe(no_mangle)]
pub extern "C" fn rsmp_lent_status(
    p: &mut [u64],
    w: &mut [u64],
    t: &[u8],
    number: u32,
    value: i32,
    time: u64,
) -> Outcome
    ensures { Called (WordsAndTable p.old w.old t.now) (table_of t.now) (status_step (site_of p.old w.old (table_of t.now)) number value time) p.old p.new w.old w.new result }
{
    sitec::inputs::rsmp_lent_status(p, w, t, number, value, time)
}

#[unsafe(no_mangle)]
pub extern "C" fn rsmp_lent_aggregated(
    p: &mut [u64],
    w: &mut [u64],
    value: u8,
    time: u64,
) -> Outcome
    ensures { (t : SiteTable) → Called (Words p.old w.old) t (aggregated_step (site_of p.old w.old t) value time) p.old p.new w.old w.new result }
{
    sitec::inputs::rsmp_lent_aggregated(p, w, value, time)
}

#[unsafe(no_mangle)]
pub extern "C" fn rsmp_lent_tick(p: &mut [u64], w: &mut [u64], time: u64) -> Outcome
    ensures { (t : SiteTable) → Called (Words p.old w.old) t (tick_step (site_of p.old w.old t) time) p.old p.new w.old w.new result }
{
    sitec::inputs::rsmp_lent_tick(p, w, time)
}

#[unsafe(no_mangle)]
pub extern "C" fn rsmp_lent_connect(p: &[u64], w: &mut [u64], link: u32, time: u64) -> Outcome
    ensures { (t : SiteTable) → Called (Words p.now w.old) t (connect_step (site_of p.now w.old t) link time) p.now p.now w.old w.new result }
{
    sitec::links::rsmp_lent_connect(p, w, link, time)
}

#[unsafe(no_mangle)]
pub extern "C" fn rsmp_lent_disconnect(
    p: &mut [u64],
    w: &mut [u64],
    link: u32,
    time: u64,
) -> Outcome
    ensures { (t : SiteTable) → Called (Words p.old w.old) t (disconnect_step (site_of p.old w.old t) link time) p.old p.new w.old w.new result }
{
    sitec::links::rsmp_lent_disconnect(p, w, link, time)
}

// One message without its form feed, received on the link; the answer and a reply go into `out`, the commands that it hands over into `commands`, sixteen
// words. `random` is sixteen random bytes.
#[unsafe(no_mangle)]
pub extern "C" fn rsmp_lent_packet(
    p: &mut [u64],
    w: &mut [u64],
    t: &[u8],
    link: u32,
    time: u64,
    random: Identity,
    received: &[u8],
    commands: &mut [u64],
    out: &mut [u8],
) -> Outcome
    ensures { Told (WithCommands p.old w.old t.now commands.old) (table_of t.now) time (packet_refuses (site_of p.old w.old (table_of t.now)) link time (identity_of random) (length out.old) received.now) (packet_taken (site_of p.old w.old (table_of t.now)) link time (identity_of random) received.now).plan p.old p.new w.old w.new out.old out.new result × Handed (WithCommands p.old w.old t.now commands.old) (packet_taken (site_of p.old w.old (table_of t.now)) link time (identity_of random) received.now).plan.commands commands.old commands.new result }
{
    sitec::messages::rsmp_lent_packet(p, w, t, link, time, random, received, commands, out)
}

// The next due message of the link goes into `out`, one at most; `random` is sixteen random bytes.
#[unsafe(no_mangle)]
pub extern "C" fn rsmp_lent_pump(
    p: &mut [u64],
    w: &mut [u64],
    t: &[u8],
    link: u32,
    time: u64,
    random: Identity,
    out: &mut [u8],
) -> Outcome
    ensures { Told (WordsAndTable p.old w.old t.now) (table_of t.now) time (pump_refuses (site_of p.old w.old (table_of t.now)) link time (identity_of random) (length out.old)) (pump_plan (site_of p.old w.old (table_of t.now)) link time (identity_of random)) p.old p.new w.old w.new out.old out.new result }
{
    sitec::messages::rsmp_lent_pump(p, w, t, link, time, random, out)
}

// How many records of the link are held.
#[unsafe(no_mangle)]
pub extern "C" fn rsmp_lent_held(p: &[u64], w: &[u64], link: u32) -> u64
    ensures { Read (λ (s : Site). held_at s link) 0 p.now w.now result }
{
    sitec::readings::rsmp_lent_held(p, w, link)
}

// How many records the link lost since start.
#[unsafe(no_mangle)]
pub extern "C" fn rsmp_lent_lost(p: &[u64], w: &[u64], link: u32) -> u64
    ensures { Read (λ (s : Site). lost_at s link) 0 p.now w.now result }
{
    sitec::readings::rsmp_lent_lost(p, w, link)
}

// 0 Down, 1 Greeting, 2 Beating, 3 Up.
#[unsafe(no_mangle)]
pub extern "C" fn rsmp_lent_phase(p: &[u64], w: &[u64], link: u32) -> u32
    ensures { Read (λ (s : Site). phase_at s link) 0 p.now w.now result }
{
    sitec::readings::rsmp_lent_phase(p, w, link)
}

// The version chosen in this life of the link; zeros before.
#[unsafe(no_mangle)]
pub extern "C" fn rsmp_lent_version_of(p: &[u64], w: &[u64], link: u32) -> ChosenVersion
    ensures { Read (λ (s : Site). version_at s link) no_version p.now w.now result }
{
    sitec::readings::rsmp_lent_version_of(p, w, link)
}

// The sixteen bytes of the held record of the link with so many older ones.
#[unsafe(no_mangle)]
pub extern "C" fn rsmp_lent_record(p: &[u64], w: &[u64], link: u32, rank: u64) -> Reading
    ensures { Read (λ (s : Site). record_at s link rank) no_reading p.now w.now result }
{
    sitec::readings::rsmp_lent_record(p, w, link, rank)
}

// From the bytes of a site table: site 0 or 1 of its box, or 4294967295 where it is alone; no primary where primary is 4294967295.
#[unsafe(no_mangle)]
pub extern "C" fn rsmp_lent_start(
    p: &mut [u64],
    w: &mut [u64],
    t: &mut [u8],
    table: &[u8],
    site: u32,
    links: u32,
    primary: u32,
    period: u32,
    first: u64,
    time: u64,
) -> Outcome
    ensures { Started table.now site links primary period first time p.old p.new w.old w.new t.old t.new result }
{
    sitec::starting::rsmp_lent_start(p, w, t, table, site, links, primary, period, first, time)
}
