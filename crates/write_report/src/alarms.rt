// An alarm's states and last event.
ghost use Rattle.std.specs.Prelude.{[], ◌∷◌};
ghost use Rattle.label.specs.Label.{text_of};
ghost use Rattle.output.specs.Put.{Wrote};
ghost use Rattle.write_message.specs.Message.Message.{alarm as alarm_of};
ghost use Rattle.write_message.specs.Pieces.{event_piece, state_pieces, rest_pieces, pieces};

use identity::Identity;
use label::Label;
use names::types;
use write_message::AlarmState;

fn event(out: &mut [u8], at: usize, event: u16) -> usize
    ensures { Wrote out.old at (event_piece event ∷ []) out.new result }
{
    if event == 0 {
        return output::put_bytes(
            out,
            at,
            b"\",\"xACId\":\"\",\"xNACId\":\"\",\"aSp\":\"Issue",
        );
    }
    write_member::choice(
        out,
        at,
        event == 1,
        b"\",\"xACId\":\"\",\"xNACId\":\"\",\"aSp\":\"Acknowledge",
        b"\",\"xACId\":\"\",\"xNACId\":\"\",\"aSp\":\"Suspend",
    )
}

fn states(out: &mut [u8], at: usize, s: AlarmState) -> usize
    ensures { Wrote out.old at (state_pieces s) out.new result }
{
    let end = event(out, at, s.event);
    let end = write_member::choice(
        out,
        end,
        s.acknowledged,
        b"\",\"ack\":\"Acknowledged",
        b"\",\"ack\":\"notAcknowledged",
    );
    let end = write_member::choice(
        out,
        end,
        s.active,
        b"\",\"aS\":\"Active",
        b"\",\"aS\":\"inActive",
    );
    write_member::choice(
        out,
        end,
        s.suspended,
        b"\",\"sS\":\"Suspended",
        b"\",\"sS\":\"notSuspended",
    )
}

fn rest(out: &mut [u8], at: usize, s: AlarmState) -> usize
    ensures { Wrote out.old at (rest_pieces s) out.new result }
{
    let end = write_member::moment_behind(out, at, b"\",\"aTs\":\"", s.time);
    let end = write_member::choice(
        out,
        end,
        s.category == 0,
        b"\",\"cat\":\"T\",\"pri\":\"",
        b"\",\"cat\":\"D\",\"pri\":\"",
    );
    let end = number::put_decimal(out, end, s.priority as u64);
    output::put_bytes(out, end, b"\",\"rvs\":[]}\x0c")
}

pub fn alarm(
    out: &mut [u8],
    at: usize,
    id: Identity,
    component: Label,
    code: Label,
    s: AlarmState,
) -> usize
    ensures { Wrote out.old at (pieces (alarm_of id.bytes (text_of component) (text_of code) s)) out.new result }
{
    let end = write_message::about(out, at, types::ALARM, id, component);
    let end = write_member::label_behind(out, end, b"\",\"aCId\":\"", code);
    let end = states(out, end, s);
    rest(out, end, s)
}
