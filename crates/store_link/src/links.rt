// A link: 3 words of times and numbers, 8 of what has happened, 64 of what is awaited.
ghost use Rattle.std.specs.Prelude.{◌≡◌, ◌+◌, ◌≤◌, length};
ghost use Rattle.store_link.specs.Rows.{link_in, PutHead, PutMarks, PutLink};

use super::slots;
use link::Link;

pub fn link_at(w: &[u64], i: usize) -> Link
    requires { i + 75 ≤ length w.now }
    ensures { result ≡ link_in w.now i }
{
    let awaited = slots::awaited_at(w, i + 11);
    let high = w[i + 1];
    let low = w[i + 2];
    Link {
        awaited,
        beat: w[i],
        alarm: store_words::upper(high),
        major: store_words::lower(high),
        minor: store_words::upper(low),
        patch: store_words::lower(low),
        connected: 0 < w[i + 3],
        versionout: 0 < w[i + 4],
        versionacked: 0 < w[i + 5],
        versiontaken: 0 < w[i + 6],
        watchdogout: 0 < w[i + 7],
        watchdogacked: 0 < w[i + 8],
        watchdogtaken: 0 < w[i + 9],
        aggregatedout: 0 < w[i + 10],
    }
}

fn put_head(w: &mut [u64], i: usize, beat: u64, alarm: u32, major: u32, minor: u32, patch: u32)
    requires { i + 3 ≤ length w.old }
    ensures { PutHead w.old w.new i beat alarm major minor patch }
{
    let high = store_words::pair(alarm, major);
    let low = store_words::pair(minor, patch);
    w[i] = beat;
    w[i + 1] = high;
    w[i + 2] = low;
}

fn put_mark(w: &mut [u64], i: usize, a: bool, b: bool, c: bool, d: bool)
    requires { i + 4 ≤ length w.old }
    ensures { PutMarks w.old w.new i a b c d }
{
    w[i] = u64::from(a);
    w[i + 1] = u64::from(b);
    w[i + 2] = u64::from(c);
    w[i + 3] = u64::from(d);
}

pub fn put_link_at(w: &mut [u64], i: usize, x: Link)
    requires { i + 75 ≤ length w.old }
    ensures { PutLink w.old w.new i x }
{
    let awaited = x.awaited;
    put_head(w, i, x.beat, x.alarm, x.major, x.minor, x.patch);
    put_mark(
        w,
        i + 3,
        x.connected,
        x.versionout,
        x.versionacked,
        x.versiontaken,
    );
    put_mark(
        w,
        i + 7,
        x.watchdogout,
        x.watchdogacked,
        x.watchdogtaken,
        x.aggregatedout,
    );
    slots::put_awaited(w, i + 11, awaited);
}
