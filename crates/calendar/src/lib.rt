// Times: milliseconds since 1970 UTC and YYYY-MM-DDThh:mm:ss.mmmZ, from 1970 to 9999, both ways; read with zero to six decimals.
#![tactic(auto)]

ghost use Rattle.std.specs.Prelude.{◌≡◌, ◌++◌, ℕ, ◌+◌, ◌-◌, ◌*◌, ◌/◌, ◌%◌, ◌≤◌, ◌<◌, length, get_or};
ghost use Rattle.std.specs.List.{list_all};
ghost use Rattle.basis.specs.Text.{text};
ghost use Rattle.output.specs.Put.{put};
ghost use Rattle.calendar.specs.Days.{leap_of, years, months, day_of, Valid, InYear, InMonth};
ghost use Rattle.calendar.specs.Civil.{date_of};
ghost use Rattle.calendar.specs.Text.{last_time, last_second, decimals, date_text, second_text, milli_text, time_text};
ghost use Rattle.calendar.specs.Put.{WroteTime};
ghost use Rattle.calendar.specs.Read.{Answers, is_digit, one_at, two_at, millis as millis_of, date_said, clock_said, read_decimals, read_rest, TimeRead};

#[derive(Clone, Copy)]
struct Date {
    year: u64,
    month: u64,
    day: u64,
}

// A year or a month, and how many of its days went before.
#[derive(Clone, Copy)]
struct Place {
    number: u64,
    passed: u64,
}

#[derive(Clone, Copy)]
enum Second {
    Is(u64),
    No,
}

// The milliseconds, and how many decimals stood there.
#[derive(Clone, Copy)]
pub enum Time {
    Is(u64, usize),
    No,
}

// 1 in a leap year, else 0.
fn leap(y: u64) -> u64
    ensures { (result ≡ leap_of y) × (result ≤ 1) }
{
    u64::from(y % 4 == 0 && (y % 100 != 0 || y % 400 == 0))
}

// The year of day n, by its parts of 400, 100, 4 and 1 years from year 1 on; the last day of a part belongs to its last year.
fn year_of(n: u64) -> Place
    requires { n < 2932897 }
    ensures { InYear n result }
{
    let d = n + 719162;
    let a = d / 146097;
    let r = d % 146097;
    let b = r / 36524 - r / 146096;
    let q = r - b * 36524;
    let c = q / 1461;
    let t = q % 1461;
    let e = t / 365 - t / 1460;
    Place {
        number: 400 * a + 100 * b + 4 * c + e + 1,
        passed: t - 365 * e,
    }
}

// The month of day n of a year: from March on the days are counted as if February had 30.
fn month_of(l: u64, n: u64) -> Place
    requires { (l ≤ 1) × (n < 365 + l) }
    ensures { InMonth l n result }
{
    if n < 59 + l {
        let m = (12 * n + 373) / 367;
        return Place {
            number: m,
            passed: n - (367 * m - 362) / 12,
        };
    }
    let x = n + 2 - l;
    let m = (12 * x + 373) / 367;
    Place {
        number: m,
        passed: x - (367 * m - 362) / 12,
    }
}

// The date of day n.
fn civil(n: u64) -> Date
    requires { n < 2932897 }
    ensures { result ≡ date_of n }
{
    let y = year_of(n);
    let year = y.number;
    let m = month_of(leap(year), y.passed);
    Date {
        year,
        month: m.number,
        day: m.passed + 1,
    }
}

// The days of the years from 1970 to before y.
fn year_start(y: u64) -> u64
    requires { (1970 ≤ y) × (y ≤ 9999) }
    ensures { (result ≡ years (y - 1970)) × (result < 2932897) }
{
    let p = y - 1;
    365 * p + p / 4 + p / 400 - p / 100 - 719162
}

// The days of a year's months before m.
fn month_start(l: u64, m: u64) -> u64
    requires { (l ≤ 1) × (1 ≤ m) × (m ≤ 12) }
    ensures { (result ≡ months l (m - 1)) × (result ≤ 366) }
{
    if m < 3 {
        (367 * m - 362) / 12
    } else {
        (367 * m - 362) / 12 - 2 + l
    }
}

// The day of a valid date; 0 of any other year or month.
fn day_of(d: Date) -> u64
    ensures { (Valid d → result ≡ day_of d) × (result < 2936000) }
{
    match (d.year, d.month, d.day) {
        (y @ 1970..=9999, m @ 1..=12, day @ 1..=31) => year_start(y)
            + month_start(leap(y), m)
            + (day - 1),
        _ => 0,
    }
}

// The last w digits of n from a place of the text on.
fn put_digits(into: [u8; 24], at: usize, w: usize, n: u64) -> [u8; 24]
    requires { at + w ≤ 24 }
    ensures { result ≡ put into at (decimals w n) }
{
    let mut t = into;
    let mut m = n;
    for i in (0..w).rev() {
        t[at + i] = 48 + (m % 10) as u8;
        m = m / 10;
    }
    t
}

fn date_text(d: Date) -> [u8; 24]
    ensures { result ≡ date_text d ++ text "T00:00:00.000Z" }
{
    let t = put_digits(*b"0000-00-00T00:00:00.000Z", 0, 4, d.year);
    let t = put_digits(t, 5, 2, d.month);
    put_digits(t, 8, 2, d.day)
}

// The text of the first millisecond of a second.
fn second_text(s: u64) -> [u8; 24]
    requires { s ≤ last_second }
    ensures { result ≡ second_text s ++ milli_text 0 }
{
    let t = date_text(civil(s / 86400));
    let k = s % 86400;
    let t = put_digits(t, 11, 2, k / 3600);
    let t = put_digits(t, 14, 2, k / 60 % 60);
    put_digits(t, 17, 2, k % 60)
}

fn time_text(ms: u64) -> [u8; 24]
    requires { ms ≤ last_time }
    ensures { result ≡ time_text ms }
{
    let t = second_text(ms / 1000);
    put_digits(t, 20, 3, ms % 1000)
}

// Writes the text of a time. After 9999 nothing is written, and the answer is out.len() + 1, as where there is no room.
pub fn put_time(out: &mut [u8], at: usize, ms: u64) -> usize
    ensures { WroteTime out.old at ms out.new result }
{
    if answer::LAST_TIME < ms {
        return out.len() + 1;
    }
    let t = time_text(ms);
    output::put_bytes(out, at, &t)
}

// The number of the digit at a place.
fn one_at(s: &[u8], at: usize) -> u64
    ensures { (result ≡ one_at s.now at) × (result < 256) }
{
    match s.get(at) {
        Some(c) => u64::from(c.saturating_sub(b'0')),
        None => 0,
    }
}

fn two_at(s: &[u8], at: usize) -> u64
    requires { at < 24 }
    ensures { (result ≡ two_at s.now at) × (result < 2816) }
{
    one_at(s, at) * 10 + one_at(s, at + 1)
}

fn date_said(h: &[u8]) -> Date
    ensures { result ≡ date_said h.now }
{
    Date {
        year: two_at(h, 0) * 100 + two_at(h, 2),
        month: two_at(h, 5),
        day: two_at(h, 8),
    }
}

fn clock_said(h: &[u8]) -> u64
    ensures { (result ≡ clock_said h.now) × (result < 20000000) }
{
    two_at(h, 11) * 3600 + two_at(h, 14) * 60 + two_at(h, 17)
}

// The seconds whose first 19 characters h is: they are worked out of its digits, written again and compared.
fn read_second(h: &[u8]) -> Second
    ensures { Answers second_text last_second h.now result }
{
    let guess = day_of(date_said(h)) * 86400 + clock_said(h);
    if 253402300799 < guess {
        return Second::No;
    }
    let t = second_text(guess);
    if h == &t[..19] {
        Second::Is(guess)
    } else {
        Second::No
    }
}

fn is_digit(b: u8) -> bool
    ensures { result ≡ is_digit b }
{
    b.is_ascii_digit()
}

fn are_digits(s: &[u8]) -> bool
    ensures { result ≡ list_all is_digit s.now }
{
    s.iter().all(|b| is_digit(*b))
}

// The milliseconds that decimals say; those after the third are dropped.
fn millis(ds: &[u8]) -> u64
    ensures { result ≡ millis_of ds.now }
{
    one_at(ds, 0) * 100 + two_at(ds, 1)
}

// One to six decimals.
fn read_decimals(ds: &[u8]) -> Time
    ensures { result ≡ read_decimals ds.now }
{
    let k = ds.len();
    if 1 <= k && k <= 6 && are_digits(ds) {
        Time::Is(millis(ds), k)
    } else {
        Time::No
    }
}

// The milliseconds that the rest after the seconds says.
fn read_rest(t: &[u8]) -> Time
    ensures { result ≡ read_rest t.now }
{
    match t {
        [b'Z'] => Time::Is(0, 0),
        [b'.', ds @ .., b'Z'] => read_decimals(ds),
        _ => Time::No,
    }
}

pub fn read_time(s: &[u8]) -> Time
    ensures { TimeRead s.now result }
{
    if s.len() < 19 {
        return Time::No;
    }
    let seconds = read_second(&s[0..19]);
    let rest = read_rest(&s[19..]);
    match seconds {
        Second::Is(a) => match rest {
            Time::Is(b, k) => Time::Is(a * 1000 + b, k),
            Time::No => Time::No,
        },
        Second::No => Time::No,
    }
}
