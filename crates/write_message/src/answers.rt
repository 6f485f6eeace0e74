// The two answers, which repeat the characters of the identity that was received.
ghost use Rattle.names.specs.Names.{name_of};
ghost use Rattle.output.specs.Put.{Wrote};
ghost use Rattle.write_message.specs.Message.Message.{ack as ack_of, not_ack};
ghost use Rattle.write_message.specs.Pieces.{pieces};

use names::types;

pub fn ack(out: &mut [u8], at: usize, received: &[u8]) -> usize
    ensures { Wrote out.old at (pieces (ack_of received.now)) out.new result }
{
    let end = super::repeated_head(out, at, types::MESSAGE_ACK, received);
    output::put_bytes(out, end, b"\"}\x0c")
}

// The reason by its number in the table of names.
pub fn not_ack(out: &mut [u8], at: usize, received: &[u8], reason: usize) -> usize
    ensures { Wrote out.old at (pieces (not_ack received.now (name_of reason))) out.new result }
{
    let end = super::repeated_head(out, at, types::MESSAGE_NOT_ACK, received);
    let end = output::put_bytes(out, end, b"\",\"rea\":\"");
    let end = names::put(out, end, reason);
    output::put_bytes(out, end, b"\"}\x0c")
}
