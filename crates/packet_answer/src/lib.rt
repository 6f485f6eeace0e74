// The answer to a packet that is not ignored, and the end of its call, in place.
#![tactic(auto)]

ghost use Rattle.std.specs.Prelude.{List, ◌≡◌, ℕ, ◌<◌, length};
ghost use Rattle.answer.specs.declared.Answer.TheVariants.{Done};
ghost use Rattle.awaited.specs.Awaited.{find_of, is_awaited};
ghost use Rattle.label.specs.Label.{text_of};
ghost use Rattle.link.specs.Steps.{full_of};
ghost use Rattle.names.specs.Names.{name_of};
ghost use Rattle.output.specs.Put.{Wrote};
ghost use Rattle.table_whole.specs.declared.SiteTable.{SiteTable};
ghost use Rattle.write_message.specs.Message.Message.{ack as ack_of, not_ack};
ghost use Rattle.write_message.specs.Pieces.{pieces};
ghost use Rattle.write_message.specs.declared.Told.TheVariants.{Update as update_of};
ghost use Rattle.site.specs.declared.Site.{Site};
ghost use Rattle.site.specs.Site.{link_at};
ghost use Rattle.site.specs.Call.{never};
ghost use Rattle.store_site.specs.Layout.{site_of, with_last, pool_words, site_words};
ghost use Rattle.store_site.specs.Turns.{Turns};
ghost use Rattle.store_call.specs.Called.{GivesIn};
ghost use Rattle.packet_answer.specs.Taken.{not_acked, closing};
ghost use Rattle.packet_answer.specs.Ending.{report as report_of, handed as handed_report, replied_at, response_head};

use answer::{Answer, Report};
use identity::Identity;
use label::Label;
use read_head::Received;
use write_message::Told;

// What the call of a packet is asked: on a link, at a time, a reply going out under an identity; the characters of the packet's mId; and whether
// the response is to carry the acknowledgement.
#[derive(Clone, Copy)]
pub struct Question {
    pub link: u16,
    pub time: u64,
    pub identity: Identity,
    pub received: Received,
    pub included: bool,
}

// Number 9's condition, where something is to be sent.
pub fn is_awaited(w: &[u64], l: u16, id: Identity) -> bool
    requires { (length w.now ≡ site_words) × (l < 4) }
    ensures { (ps : List ℕ) (t : SiteTable) → result ≡ is_awaited (find_of (link_at (site_of ps w.now t) l).awaited id) }
{
    store_site::phases::awaits(w, l as usize, id)
}

// "Busy", where a reply is due.
pub fn is_busy(w: &[u64], l: u16) -> bool
    requires { (length w.now ≡ site_words) × (l < 4) }
    ensures { (ps : List ℕ) (t : SiteTable) → result ≡ full_of (link_at (site_of ps w.now t) l) }
{
    store_site::phases::full(w, l as usize)
}

pub fn report(hint: u64, hinted: u16, end: usize, closed: u16) -> Report
    ensures { result ≡ report_of hint hinted end closed }
{
    Report {
        hint,
        written: (end % 4294967296) as u32,
        closed,
        hinted,
        commands: 0,
    }
}

// The end of a call that wrote up to an end: its time is kept.
pub fn done(w: &mut [u64], time: u64, hint: u64, hinted: u16, end: usize, closed: u16) -> Answer
    requires { length w.old ≡ site_words }
    ensures { (result ≡ Done (report_of hint hinted end closed)) × Turns (λ (s : Site). with_last s time) w.old w.new }
{
    store_site::parts::put_last(w, time);
    Answer::Done(report(hint, hinted, end, closed))
}

// MessageAck, at the beginning of the output.
pub fn ack(q: Question, out: &mut [u8]) -> usize
    ensures { Wrote out.old 0 (pieces (ack_of q.received.bytes)) out.new result }
{
    let received = q.received;
    let characters = received.bytes;
    write_message::answers::ack(out, 0, &characters)
}

// MessageNotAck, at the beginning of the output.
fn refusal(q: Question, reason: usize, out: &mut [u8]) -> usize
    ensures { Wrote out.old 0 (pieces (not_ack q.received.bytes (name_of reason))) out.new result }
{
    let received = q.received;
    let characters = received.bytes;
    write_message::answers::not_ack(out, 0, &characters, reason)
}

// How the response to a request begins, at the beginning of what is lent: it repeats the request's identity, or goes out under the call's.
pub fn begin(out: &mut [u8], q: Question, kind: Told, component: Label) -> usize
    requires { kind ≡ update_of → ⊥ }
    ensures { Wrote out.old 0 (response_head q kind (text_of component)) out.new result }
{
    if q.included {
        let received = q.received;
        let characters = received.bytes;
        return write_report::status::begin_included(out, 0, kind, &characters, component, q.time);
    }
    let id = q.identity;
    write_report::status::begin(out, 0, kind, id, component, q.time)
}

// Answered with a reason, and nothing is done.
pub fn not_ack(w: &mut [u64], q: Question, reason: usize, out: &mut [u8]) -> Answer
    requires { length w.old ≡ site_words }
    ensures { (ps : List ℕ) (t : SiteTable) → GivesIn t q.time never (not_acked (site_of ps w.old t) q reason).plan ps ps w.old w.new out.old out.new result }
{
    let end = refusal(q, reason, out);
    done(w, q.time, 0, 0, end, 0)
}

// Answered with a reason, and the link is closed.
pub fn close(p: &mut [u64], w: &mut [u64], q: Question, reason: usize, out: &mut [u8]) -> Answer
    requires { (length p.old ≡ pool_words) × (length w.old ≡ site_words) × (q.link < 4) }
    ensures { (t : SiteTable) → GivesIn t q.time never (closing (site_of p.old w.old t) q reason).plan p.old p.new w.old w.new out.old out.new result }
{
    let end = refusal(q, reason, out);
    store_call::close(p, w, q.link);
    done(w, q.time, 0, 0, end, site::bit_of(q.link))
}

// The reply is awaited, and the call's time is kept.
fn replied(w: &mut [u64], q: Question)
    requires { (length w.old ≡ site_words) × (q.link < 4) }
    ensures { Turns (λ (s : Site). (replied_at s q 0).site) w.old w.new }
{
    let l = q.link;
    let id = q.identity;
    let k = store_site::parts::link(w, l as usize);
    store_site::parts::put_link(w, l as usize, k.other_out(id, q.time));
    store_site::parts::put_last(w, q.time);
}

// The end of a call that wrote MessageAck and a reply up to an end.
pub fn reply_done(w: &mut [u64], q: Question, end: usize) -> Answer
    requires { (length w.old ≡ site_words) × (q.link < 4) }
    ensures { (result ≡ Done (report_of 0 0 end 0)) × Turns (λ (s : Site). (replied_at s q end).site) w.old w.new }
{
    replied(w, q);
    Answer::Done(report(0, 0, end, 0))
}

fn handed(end: usize, commands: usize) -> Report
    ensures { result ≡ handed_report end commands }
{
    Report {
        hint: 0,
        written: (end % 4294967296) as u32,
        closed: 0,
        hinted: 0,
        commands: commands as u64,
    }
}

// The end of such a call that hands over so many commands.
pub fn hand_done(w: &mut [u64], q: Question, end: usize, commands: usize) -> Answer
    requires { (length w.old ≡ site_words) × (q.link < 4) }
    ensures { (result ≡ Done (handed_report end commands)) × Turns (λ (s : Site). (replied_at s q end).site) w.old w.new }
{
    replied(w, q);
    Answer::Done(handed(end, commands))
}

// .. that wrote a response with the acknowledgement in it: nothing is awaited.
pub fn respond_done(w: &mut [u64], time: u64, end: usize, commands: usize) -> Answer
    requires { length w.old ≡ site_words }
    ensures { (result ≡ Done (handed_report end commands)) × Turns (λ (s : Site). with_last s time) w.old w.new }
{
    store_site::parts::put_last(w, time);
    Answer::Done(handed(end, commands))
}
