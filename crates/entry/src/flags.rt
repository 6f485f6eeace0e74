// The six flags of an alarm and of a status.
ghost use Rattle.std.specs.Prelude.{◌≡◌, ℕ, ◌+◌, ◌*◌, ◌/◌, ◌%◌, ◌^◌, ◌≤◌, ◌<◌};
ghost use Rattle.basis.specs.Pick.{bit as bit_of};
ghost use Rattle.entry.specs.Flags.{is_set, alarm_flags, status_flags, event_of, is_acknowledged, is_active, is_suspended, is_known, is_old};

// An alarm's event, as aSp says it.
pub const ISSUE: u16 = 0;

pub const ACKNOWLEDGE: u16 = 1;

pub const SUSPEND: u16 = 2;

fn bit(b: bool) -> u64
    ensures { result ≡ bit_of b }
{
    u64::from(b)
}

// The flags of an alarm.
pub fn of_alarm(event: u16, acknowledged: bool, active: bool, suspended: bool) -> u16
    ensures { result ≡ alarm_flags event acknowledged active suspended }
{
    let f = bits::push(0, 2, event as u64);
    let f = bits::push(f, 1, bit(acknowledged));
    let f = bits::push(f, 1, bit(active));
    let f = bits::push(f, 1, bit(suspended));
    bits::push(f, 1, 0) as u16
}

// The flags of a status.
pub fn of_status(known: bool, old: bool) -> u16
    ensures { result ≡ status_flags known old }
{
    let f = bits::push(0, 1, bit(known));
    let f = bits::push(f, 1, bit(old));
    bits::push(f, 4, 0) as u16
}

fn is_set(flags: u16, shift: u32) -> bool
    ensures { result ≡ is_set flags shift }
{
    bits::field(flags as u64, shift, 1) == 1
}

pub fn event(flags: u16) -> u16
    ensures { result ≡ event_of flags }
{
    bits::field(flags as u64, 4, 2) as u16
}

pub fn acknowledged(flags: u16) -> bool
    ensures { result ≡ is_acknowledged flags }
{
    is_set(flags, 3)
}

pub fn active(flags: u16) -> bool
    ensures { result ≡ is_active flags }
{
    is_set(flags, 2)
}

pub fn suspended(flags: u16) -> bool
    ensures { result ≡ is_suspended flags }
{
    is_set(flags, 1)
}

pub fn known(flags: u16) -> bool
    ensures { result ≡ is_known flags }
{
    is_set(flags, 5)
}

pub fn old(flags: u16) -> bool
    ensures { result ≡ is_old flags }
{
    is_set(flags, 4)
}
