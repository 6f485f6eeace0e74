// What comes in and what goes out on a link.
ghost use Rattle.std.specs.Prelude.{◌≡◌, length};
ghost use Rattle.identity.specs.Version.{identity_of};
ghost use Rattle.basis.specs.Pick.{pick};
ghost use Rattle.packet_command.specs.Handing.{handed_over, commands_in};
ghost use Rattle.call_pump.specs.Pump.{pump_refuses, pump_plan};
ghost use Rattle.call_packet.specs.Packet.{packet_refuses, packet_taken};
ghost use Rattle.store_site.specs.Layout.{site_of};
ghost use Rattle.store_table.specs.Layout.{table_of, table_bytes};
ghost use Rattle.sitec.specs.Lent.{WordsAndTable, WithCommands, Told, Handed};
ghost use Rattle.sitec.specs.Outcome.{hands_of};

use super::Outcome;
use answer::Answer;
use identity::Identity;

// Whether a done call hands commands over.
fn hands(a: Answer) -> bool
    ensures { result ≡ hands_of a }
{
    match a {
        Answer::Done(r) => 0 < r.commands,
        Answer::Refused(_) => false,
    }
}

// The commands of a done call that hands some over go into their words.
fn hand(a: Answer, t: &[u8], received: &[u8], commands: &mut [u64])
    requires { (length t.now ≡ table_bytes) × (length commands.old ≡ 16) }
    ensures { commands.new ≡ pick (hands_of a) (handed_over (commands_in (table_of t.now) received.now) commands.old) commands.old }
{
    if hands(a) {
        packet_command::hand_over(t, received, commands);
    }
}

// One message without its form feed, received on the link; the answer and a reply go into `out`, the commands that it hands over into `commands`, sixteen
// words. `random` is sixteen random bytes.
pub fn rsmp_lent_packet(
    p: &mut [u64],
    w: &mut [u64],
    t: &[u8],
    link: u32,
    time: u64,
    random: Identity,
    received: &[u8],
    commands: &mut [u64],
    out: &mut [u8],
) -> Outcome
    ensures { Told (WithCommands p.old w.old t.now commands.old) (table_of t.now) time (packet_refuses (site_of p.old w.old (table_of t.now)) link time (identity_of random) (length out.old) received.now) (packet_taken (site_of p.old w.old (table_of t.now)) link time (identity_of random) received.now).plan p.old p.new w.old w.new out.old out.new result × Handed (WithCommands p.old w.old t.now commands.old) (packet_taken (site_of p.old w.old (table_of t.now)) link time (identity_of random) received.now).plan.commands commands.old commands.new result }
{
    if p.len() != store_site::POOL_WORDS {
        return super::misfit();
    }
    if w.len() != store_site::WORDS {
        return super::misfit();
    }
    if t.len() != store_table::BYTES {
        return super::misfit();
    }
    if commands.len() != 16 {
        return super::misfit();
    }
    let a = call_packet::packet(p, w, t, link, time, random, received, out);
    hand(a, t, received, commands);
    super::outcome_of(a)
}

// The next due message of the link goes into `out`, one at most; `random` is sixteen random bytes.
pub fn rsmp_lent_pump(
    p: &mut [u64],
    w: &mut [u64],
    t: &[u8],
    link: u32,
    time: u64,
    random: Identity,
    out: &mut [u8],
) -> Outcome
    ensures { Told (WordsAndTable p.old w.old t.now) (table_of t.now) time (pump_refuses (site_of p.old w.old (table_of t.now)) link time (identity_of random) (length out.old)) (pump_plan (site_of p.old w.old (table_of t.now)) link time (identity_of random)) p.old p.new w.old w.new out.old out.new result }
{
    if p.len() != store_site::POOL_WORDS {
        return super::misfit();
    }
    if w.len() != store_site::WORDS {
        return super::misfit();
    }
    if t.len() != store_table::BYTES {
        return super::misfit();
    }
    super::outcome_of(call_pump::pump(p, w, t, link, time, random, out))
}
