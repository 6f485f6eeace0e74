// The types that tell statuses and those that answer commands, and what is put by them.
ghost use Rattle.std.specs.Prelude.{◌≡◌, [], ◌∷◌};
ghost use Rattle.names.specs.Names.{name_of};
ghost use Rattle.output.specs.Put.{Wrote};
ghost use Rattle.write_message.specs.Listing.{type_text, included_text};
ghost use Rattle.write_message.specs.Pieces.{by_kind};
ghost use Rattle.write_message.specs.declared.Told.TheVariants.{Update as update_of};

use names::types;
use write_message::Told;

pub fn type_of(kind: Told) -> usize
    ensures { name_of result ≡ type_text kind }
{
    match kind {
        Told::Response => types::STATUS_RESPONSE,
        Told::Update => types::STATUS_UPDATE,
        Told::Command => types::COMMAND_RESPONSE,
    }
}

// Of a response that carries its acknowledgement.
pub fn included_type_of(kind: Told) -> usize
    requires { kind ≡ update_of → ⊥ }
    ensures { name_of result ≡ included_text kind }
{
    match kind {
        Told::Response => types::STATUS_RESPONSE_ACK_INCLUDED,
        Told::Update => types::STATUS_UPDATE,
        Told::Command => types::COMMAND_RESPONSE_ACK_INCLUDED,
    }
}

// What stands there where statuses are told, or where a command is answered.
pub fn put_by(out: &mut [u8], at: usize, kind: Told, status: &[u8], command: &[u8]) -> usize
    ensures { Wrote out.old at (by_kind kind status.now command.now ∷ []) out.new result }
{
    match kind {
        Told::Response => output::put_bytes(out, at, status),
        Told::Update => output::put_bytes(out, at, status),
        Told::Command => output::put_bytes(out, at, command),
    }
}
