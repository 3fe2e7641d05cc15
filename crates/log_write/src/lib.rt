// A run as an XES log. Each writer writes from a place on, as far as the lent buffer goes, and returns the place behind its text.
#![tactic(auto)]

ghost use Rattle.write_buffer.specs.Buffers.{Put};
ghost use Rattle.write_lines.specs.Lines.{step_line};
ghost use Rattle.log_write.specs.Xes.{header, event_closing, event_text, footer, header_most, closing_most, event_most, footer_most};

use meaning::{Answer, Name};
use times::{STAMP, put_stamp};
use write_buffer::put_bytes;
use write_lines::{STEP_LINE, put_step};

pub mod times;

// The greatest length of each.
pub const HEADER: usize = 122 + 94 + 85 + 76 + 52 + 48;

pub const CLOSING: usize = 3 + STAMP + 9;

pub const EVENT: usize = 41 + STEP_LINE + CLOSING;

pub const FOOTER: usize = 16;

// What stands before the events.
pub fn put_header(out: &mut [u8], from: usize) -> usize
    ensures { Put header header_most from out.old result out.new }
{
    let opening = put_bytes(
        out,
        from,
        b"<?xml version=\"1.0\" encoding=\"UTF-8\"?>\n<log xes.version=\"1849-2016\" xes.features=\"\" xmlns=\"http://www.xes-standard.org/\">\n",
    );
    let extension = put_bytes(
        out,
        opening,
        b"<extension name=\"Concept\" prefix=\"concept\" uri=\"http://www.xes-standard.org/concept.xesext\"/>\n",
    );
    let time = put_bytes(
        out,
        extension,
        b"<extension name=\"Time\" prefix=\"time\" uri=\"http://www.xes-standard.org/time.xesext\"/>\n",
    );
    let global = put_bytes(
        out,
        time,
        b"<global scope=\"event\"><string key=\"concept:name\" value=\"UNKNOWN\"/></global>\n",
    );
    let classifier = put_bytes(
        out,
        global,
        b"<classifier name=\"Event-Name\" keys=\"concept:name\"/>\n",
    );
    put_bytes(
        out,
        classifier,
        b"<trace><string key=\"concept:name\" value=\"run\"/>\n",
    )
}

// What stands behind an event's line: when it was, where a moment is given, and the end tag.
pub fn put_closing(out: &mut [u8], from: usize, moment: u64) -> usize
    ensures { Put (event_closing moment) closing_most from out.old result out.new }
{
    let name = put_bytes(out, from, b"\"/>");
    let stamp = put_stamp(out, name, moment);
    put_bytes(out, stamp, b"</event>\n")
}

// The event of a step: its name is the step's line.
pub fn put_event(out: &mut [u8], from: usize, n: Name, a: Answer, moment: u64) -> usize
    ensures { Put (event_text moment (step_line n a)) event_most from out.old result out.new }
{
    let opening = put_bytes(out, from, b"<event><string key=\"concept:name\" value=\"");
    let line = put_step(out, opening, n, a);
    put_closing(out, line, moment)
}

// What stands behind the events.
pub fn put_footer(out: &mut [u8], from: usize) -> usize
    ensures { Put footer footer_most from out.old result out.new }
{
    put_bytes(out, from, b"</trace>\n</log>\n")
}
