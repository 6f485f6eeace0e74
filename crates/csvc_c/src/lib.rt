// What C calls: the functions of `csvc`, with their contracts, under the names of rsmp_csv.h.
#![tactic(auto)]

ghost use Rattle.csvc.specs.Calls.{Heads, Writes, Reads};

use csvc::{Read, Told};

// The header, from the start of out.
#[unsafe(no_mangle)]
pub extern "C" fn rsmp_csv_header(out: &mut [u8]) -> Told
    ensures { Heads out.old out.new result }
{
    csvc::rsmp_csv_header(out)
}

// The line of the record whose 16 bytes are given, from the start of out.
#[unsafe(no_mangle)]
pub extern "C" fn rsmp_csv_line(bytes: &[u8], out: &mut [u8]) -> Told
    ensures { Writes bytes.now out.old out.new result }
{
    csvc::rsmp_csv_line(bytes, out)
}

// What stands at a place of the text: the first line behind the header at 0, else the line that begins there.
#[unsafe(no_mangle)]
pub extern "C" fn rsmp_csv_read(text: &[u8], at: u64, line: u64) -> Read
    ensures { Reads text.now at line result }
{
    csvc::rsmp_csv_read(text, at, line)
}
