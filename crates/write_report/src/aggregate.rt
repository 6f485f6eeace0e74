// The aggregated status: eight booleans, the first in the highest bit.
ghost use Rattle.std.specs.Prelude.{[], ◌∷◌};
ghost use Rattle.basis.specs.Pick.{pick};
ghost use Rattle.basis.specs.Text.{text};
ghost use Rattle.label.specs.Label.{text_of};
ghost use Rattle.output.specs.Put.{Wrote};
ghost use Rattle.write_message.specs.Message.Message.{aggregated as aggregated_of};
ghost use Rattle.write_message.specs.Pieces.{high_pieces, low_pieces, pieces};

use identity::Identity;
use label::Label;
use names::types;

fn flag(out: &mut [u8], at: usize, test: bool) -> usize
    ensures { Wrote out.old at (pick test (text "true,") (text "false,") ∷ []) out.new result }
{
    write_member::choice(out, at, test, b"true,", b"false,")
}

fn high(out: &mut [u8], at: usize, value: u8) -> usize
    ensures { Wrote out.old at (high_pieces value) out.new result }
{
    let end = flag(out, at, value / 128 % 2 == 1);
    let end = flag(out, end, value / 64 % 2 == 1);
    let end = flag(out, end, value / 32 % 2 == 1);
    flag(out, end, value / 16 % 2 == 1)
}

fn low(out: &mut [u8], at: usize, value: u8) -> usize
    ensures { Wrote out.old at (low_pieces value) out.new result }
{
    let end = flag(out, at, value / 8 % 2 == 1);
    let end = flag(out, end, value / 4 % 2 == 1);
    let end = flag(out, end, value / 2 % 2 == 1);
    write_member::choice(out, end, value / 1 % 2 == 1, b"true]}\x0c", b"false]}\x0c")
}

pub fn aggregated(
    out: &mut [u8],
    at: usize,
    id: Identity,
    component: Label,
    time: u64,
    value: u8,
) -> usize
    ensures { Wrote out.old at (pieces (aggregated_of id.bytes (text_of component) time value)) out.new result }
{
    let end = write_message::about(out, at, types::AGGREGATED_STATUS, id, component);
    let end = write_member::moment_behind(out, end, b"\",\"aSTS\":\"", time);
    let end = output::put_bytes(out, end, b"\",\"fP\":\"\",\"fS\":\"\",\"se\":[");
    let end = high(out, end, value);
    low(out, end, value)
}
