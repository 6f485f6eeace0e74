// What goes out while a link comes up: Version and Watchdog.
ghost use Rattle.label.specs.Label.{text_of};
ghost use Rattle.output.specs.Put.{Wrote};
ghost use Rattle.write_message.specs.Message.Message.{version as version_of, watchdog as watchdog_of};
ghost use Rattle.write_message.specs.Pieces.{pieces};

use identity::Identity;
use label::Label;
use names::types;

pub fn version(out: &mut [u8], at: usize, id: Identity, site: Label, sxl: Label) -> usize
    ensures { Wrote out.old at (pieces (version_of id.bytes (text_of site) (text_of sxl))) out.new result }
{
    let end = super::own_head(out, at, types::VERSION, id);
    let end = write_member::label_behind(
        out,
        end,
        b"\",\"RSMP\":[{\"vers\":\"3.1.4\"},{\"vers\":\"3.1.5\"},{\"vers\":\"3.2\"}],\"siteId\":[{\"sId\":\"",
        site,
    );
    let end = write_member::label_behind(out, end, b"\"}],\"SXL\":\"", sxl);
    output::put_bytes(out, end, b"\"}\x0c")
}

pub fn watchdog(out: &mut [u8], at: usize, id: Identity, time: u64) -> usize
    ensures { Wrote out.old at (pieces (watchdog_of id.bytes time)) out.new result }
{
    let end = super::own_head(out, at, types::WATCHDOG, id);
    let end = write_member::moment_behind(out, end, b"\",\"wTs\":\"", time);
    output::put_bytes(out, end, b"\"}\x0c")
}
