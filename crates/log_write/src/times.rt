// When an event was: a moment in milliseconds since 1970-01-01T00:00:00Z, as XES writes it, in UTC.
ghost use Rattle.std.specs.Prelude.{◌≡◌, [], ◌∷◌, ◌%◌, ◌<◌};
ghost use Rattle.write_buffer.specs.Buffers.{Put};
ghost use Rattle.write_decimals.specs.Decimals.{digit};
ghost use Rattle.log_write.specs.Times.{day_in, day_of, two, field, day_text, clock_text, millis_text, moment_text, stamp_text, stamp_most};

use write_buffer::{put_byte, put_bytes};

// A day in milliseconds, the days before 1970-01-01 from the first of March of the year 0 on, and behind the last moment of the year 9999.
const DAY: u64 = 86400000;

const BEFORE: u64 = 719468;

const END: u64 = 253402300800000;

// The greatest length of a stamp.
pub const STAMP: usize = 34 + 29 + 3;

// A day of the calendar.
#[derive(Clone, Copy)]
pub struct Day {
    pub year: u64,
    pub month: u64,
    pub day: u64,
}

// The day of a year that begins with March, by five times its days.
fn day_in(year: u64, fifths: u64) -> Day
    requires { year < 18446744073709551615 }
    ensures { result ≡ day_in year fifths }
{
    let month = fifths / 153;
    let day = fifths % 153 / 5 + 1;
    if month <= 12 {
        return Day { year, month, day };
    }
    Day {
        year: year + 1,
        month: month - 12,
        day,
    }
}

fn day_of(moment: u64) -> Day
    ensures { result ≡ day_of moment }
{
    let quarters = 4 * (moment / DAY + BEFORE) + 3;
    let century = quarters / 146097;
    let rest = 4 * (quarters % 146097 / 4) + 3;
    day_in(100 * century + rest / 1461, 5 * (rest % 1461 / 4) + 461)
}

fn put_digit(out: &mut [u8], from: usize, n: u64) -> usize
    ensures { Put (digit (n % 10) ∷ []) 1 from out.old result out.new }
{
    put_byte(out, from, b'0' + (n % 10) as u8)
}

// The last two digits of a number.
fn put_two(out: &mut [u8], from: usize, n: u64) -> usize
    ensures { Put (two n) 2 from out.old result out.new }
{
    let tens = put_digit(out, from, n / 10);
    put_digit(out, tens, n)
}

// A sign, and two digits behind it.
fn put_field(out: &mut [u8], from: usize, sign: u8, n: u64) -> usize
    ensures { Put (field sign n) 3 from out.old result out.new }
{
    let first = put_byte(out, from, sign);
    put_two(out, first, n)
}

fn put_day(out: &mut [u8], from: usize, d: Day) -> usize
    ensures { Put (day_text d) 10 from out.old result out.new }
{
    let century = put_two(out, from, d.year / 100);
    let year = put_two(out, century, d.year);
    let month = put_field(out, year, b'-', d.month);
    put_field(out, month, b'-', d.day)
}

fn put_clock(out: &mut [u8], from: usize, moment: u64) -> usize
    ensures { Put (clock_text moment) 9 from out.old result out.new }
{
    let hours = put_field(out, from, b'T', moment / 3600000 % 24);
    let minutes = put_field(out, hours, b':', moment / 60000 % 60);
    put_field(out, minutes, b':', moment / 1000 % 60)
}

fn put_millis(out: &mut [u8], from: usize, moment: u64) -> usize
    ensures { Put (millis_text moment) 4 from out.old result out.new }
{
    let point = put_byte(out, from, b'.');
    let hundreds = put_digit(out, point, moment / 100);
    put_two(out, hundreds, moment)
}

fn put_moment(out: &mut [u8], from: usize, moment: u64) -> usize
    ensures { Put (moment_text moment) 29 from out.old result out.new }
{
    let day = put_day(out, from, day_of(moment));
    let clock = put_clock(out, day, moment);
    let millis = put_millis(out, clock, moment);
    put_bytes(out, millis, b"+00:00")
}

// An event's `date`; nothing for 0, and behind the year 9999.
pub fn put_stamp(out: &mut [u8], from: usize, moment: u64) -> usize
    ensures { Put (stamp_text moment) stamp_most from out.old result out.new }
{
    if moment == 0 {
        return from;
    }
    if moment < END {
        let opening = put_bytes(out, from, b"<date key=\"time:timestamp\" value=\"");
        let written = put_moment(out, opening, moment);
        return put_bytes(out, written, b"\"/>");
    }
    from
}
