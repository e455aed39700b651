// The UTC date of a number of seconds since the start of 1970, as text in a lent buffer.
#![tactic(auto)]

ghost use Rattle.std.specs.Prelude.{◌≡◌};
ghost use Rattle.text.specs.Spots.{spot, lay};
ghost use Rattle.utc.specs.Dates.{leap, year_length, is_short, month_length, year_of, month_of, two_digits, ymd_text, day_text, hour_text, date_text};

use text::{put, put_decimal};

// The year that the seconds are counted from.
const FIRST_YEAR: u64 = 1970;

// The days of a year that is no leap year: no year has fewer.
const YEAR: u64 = 365;

// How many months a year has.
const MONTHS: u64 = 12;

// The seconds of a minute, which are also the minutes of an hour.
const SIXTY: u64 = 60;

// The seconds of an hour.
const HOUR: u64 = 3_600;

// The hours of a day.
const HOURS: u64 = 24;

// The seconds of a day.
const DAY: u64 = 86_400;

// A year or a month, and a day's number in it, from 1.
#[derive(Clone, Copy)]
pub struct Stand {
    pub number: u64,
    pub day: u64,
}

// Whether a year has 366 days: every fourth but three of four at the hundreds.
fn is_leap(y: u64) -> bool
    ensures { result ≡ leap y }
{
    y % 400 == 0 || y % 100 != 0 && y % 4 == 0
}

// How many days a year has.
fn year_length(y: u64) -> u64
    ensures { result ≡ year_length y }
{
    if is_leap(y) { 366 } else { YEAR }
}

// Whether a month has 30 days: April, June, September, November.
fn is_short(m: u64) -> bool
    ensures { result ≡ is_short m }
{
    matches!(m, 4 | 6 | 9 | 11)
}

// How many days month `m` of year `y` has.
fn month_length(y: u64, m: u64) -> u64
    ensures { result ≡ month_length y m }
{
    if m == 2 {
        if is_leap(y) { 29 } else { 28 }
    } else if is_short(m) {
        30
    } else {
        31
    }
}

// The year of a day, counted from 1 for the first of 1970.
fn year_of(day: u64) -> Stand
    ensures { result ≡ year_of day }
{
    let last = FIRST_YEAR + day / YEAR;
    let mut left = day;
    for year in FIRST_YEAR..last {
        let long = year_length(year);
        if left <= long {
            return Stand {
                number: year,
                day: left,
            };
        }
        left -= long;
    }
    Stand {
        number: last,
        day: left,
    }
}

// The month of a day of a year.
fn month_of(year: u64, day: u64) -> Stand
    ensures { result ≡ month_of year day }
{
    let mut left = day;
    for month in 1..MONTHS {
        let long = month_length(year, month);
        if left <= long {
            return Stand {
                number: month,
                day: left,
            };
        }
        left -= long;
    }
    Stand {
        number: MONTHS,
        day: left,
    }
}

// A number in two digits or more.
fn put_two(out: &mut [u8], at: usize, n: u64) -> usize
    ensures { spot result out.new ≡ lay (spot at out.old) (two_digits n) }
{
    if n < 10 {
        let to = put(out, at, b"0");
        return put_decimal(out, to, n);
    }
    put_decimal(out, at, n)
}

// `1970-01-01`
fn put_ymd(out: &mut [u8], at: usize, y: u64, m: u64, d: u64) -> usize
    ensures { spot result out.new ≡ lay (spot at out.old) (ymd_text y m d) }
{
    let to = put_decimal(out, at, y);
    let to = put(out, to, b"-");
    let to = put_two(out, to, m);
    let to = put(out, to, b"-");
    put_two(out, to, d)
}

// The same of a day, counted from 1 for the first of 1970.
fn put_day(out: &mut [u8], at: usize, day: u64) -> usize
    ensures { spot result out.new ≡ lay (spot at out.old) (day_text day) }
{
    let y = year_of(day);
    let m = month_of(y.number, y.day);
    put_ymd(out, at, y.number, m.number, m.day)
}

// `00:00:00`
fn put_hour(out: &mut [u8], at: usize, s: u64) -> usize
    ensures { spot result out.new ≡ lay (spot at out.old) (hour_text s) }
{
    let to = put_two(out, at, s / HOUR % HOURS);
    let to = put(out, to, b":");
    let to = put_two(out, to, s / SIXTY % SIXTY);
    let to = put(out, to, b":");
    put_two(out, to, s % SIXTY)
}

// `1970-01-01 00:00:00 UTC`
pub fn put_date(out: &mut [u8], at: usize, s: u64) -> usize
    ensures { spot result out.new ≡ lay (spot at out.old) (date_text s) }
{
    let to = put_day(out, at, s / DAY + 1);
    let to = put(out, to, b" ");
    let to = put_hour(out, to, s);
    put(out, to, b" UTC")
}
