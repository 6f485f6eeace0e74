// Which records there are, kind by kind.
ghost use Rattle.std.specs.Prelude.{◌≡◌, ℕ, ◌+◌, ◌*◌, ◌/◌, ◌%◌, ◌^◌, ◌≤◌, ◌<◌};
ghost use Rattle.entry.specs.Valid.{Valid, OfKind, Alarm, Status, Aggregated, Decides};

use super::{AGGREGATED, ALARM, Entry, STATUS};

// Events go to Suspend, and the last flag is 0.
fn is_alarm(e: Entry) -> bool
    ensures { Decides result (Alarm e) }
{
    e.kind == ALARM && e.item < 32 && e.flags < 48 && e.flags % 2 == 0 && e.value == 0
}

// Only the first two flags may be set; without the first there is no value.
fn is_status(e: Entry) -> bool
    ensures { Decides result (Status e) }
{
    e.kind == STATUS
        && e.item < 32
        && e.flags < 64
        && e.flags % 16 == 0
        && (32 <= e.flags || e.value == 0)
}

fn is_aggregated(e: Entry) -> bool
    ensures { Decides result (Aggregated e) }
{
    e.kind == AGGREGATED && e.item == 0 && e.flags == 0 && e.value < 256
}

fn is_of_kind(e: Entry) -> bool
    ensures { Decides result (OfKind e) }
{
    is_alarm(e) || is_status(e) || is_aggregated(e)
}

// Whether the site has records of these fields.
pub fn valid(e: Entry) -> bool
    ensures { Decides result (Valid e) }
{
    e.link < 8 && e.sequence < 2147483648 && e.time <= answer::LAST_TIME && is_of_kind(e)
}
