//! What one field of a timetable text says: pieces, numbers, times, and the value ranges.
#![tactic(auto)]

ghost use Rattle.std.specs.Prelude.{◌≡◌, ◌+◌, ◌≤◌, length, drop};
ghost use Rattle.text.specs.Piece.{piece_length};
ghost use Rattle.text.specs.Number.{digit_value, field_value};
ghost use Rattle.text.specs.Time.{pair_value, time_value};
ghost use Rattle.text.specs.Range.{range_number};
ghost use Rattle.questions.specs.Refused.{number_seen};

use questions::Refusal;

pub const COMMA: u8 = 44;

const ZERO: u8 = 48;

const NINE: u8 = 57;

const COLON: u8 = 58;

// The value of an empty field and of a field that is no number: both above every number.
// Stays: `empty_field` and `no_number` of specs/Number.antt say these numbers, and the laws of lines compare by them.
pub const EMPTY: u32 = 10000;

const NO_NUMBER: u32 = 10001;

pub const NUMBER_MOST: u32 = 9999;

const DIGITS_MOST: usize = 4;

// A time `hh:mm`, its last hour and the last minute of an hour.
const TIME_BYTES: usize = 5;

const HOURS_MOST: u32 = 47;

const MINUTES_MOST: u32 = 59;

// The value of a time of good form that is out of range: the first minute after the two days.
// Stays: `past_times` of specs/Time.antt says this number.
const PAST_TIMES: u32 = 2880;

// The kinds of fields that have a value range.
// Stays: document 01 asks here for "a match on the field's kind number", and `range_number` of specs/Range.antt speaks
// of every number.
pub const CHANGE_MINUTES: u8 = 1;

pub const CHANGE_PENALTY: u8 = 2;

pub const TIME: u8 = 3;

pub const RIDE_PENALTY: u8 = 4;

pub const MARK: u8 = 5;

pub const WALK_MINUTES: u8 = 6;

// The index of the first byte mark at or after index from, or the length where there is none.
pub fn piece_end(s: &[u8], mark: u8, from: usize) -> usize
    requires { from ≤ length s.now }
    ensures { (result ≡ from + piece_length mark (drop from s.now))
        × (from ≤ result)
        × (result ≤ length s.now) }
{
    for i in from..s.len() {
        if s[i] == mark {
            return i;
        }
    }
    s.len()
}

// The value of a decimal digit, and 10 for any other byte.
// Stays: `digit_value` of specs/Number.antt says this 10, and `decimal` there stops at it.
fn digit_value(b: u8) -> u32
    ensures { result ≡ digit_value b }
{
    if b < ZERO {
        return 10;
    }
    if NINE < b {
        return 10;
    }
    (b - ZERO) as u32
}

// The number that a field holds, or EMPTY, or NO_NUMBER.
pub fn field_value(field: &[u8]) -> u32
    ensures { result ≡ field_value field.now }
{
    let n = field.len();
    if n == 0 {
        return EMPTY;
    }
    if DIGITS_MOST < n {
        return NO_NUMBER;
    }
    if field[0] == ZERO {
        if n == 1 {
            return 0;
        }
        return NO_NUMBER;
    }
    let mut value = 0;
    for &b in field {
        let d = digit_value(b);
        if 10 <= d {
            return NO_NUMBER;
        }
        value = value * 10 + d;
    }
    value
}

// The number of two digits, or NO_NUMBER.
fn pair_value(tens: u8, ones: u8) -> u32
    ensures { result ≡ pair_value tens ones }
{
    let high = digit_value(tens);
    if 10 <= high {
        return NO_NUMBER;
    }
    let low = digit_value(ones);
    if 10 <= low {
        return NO_NUMBER;
    }
    high * 10 + low
}

// The minute of a time `hh:mm`, PAST_TIMES where it is out of range; or EMPTY, or NO_NUMBER for any other form.
pub fn time_value(field: &[u8]) -> u32
    ensures { result ≡ time_value field.now }
{
    let n = field.len();
    if n == 0 {
        return EMPTY;
    }
    if n != TIME_BYTES {
        return NO_NUMBER;
    }
    if field[2] != COLON {
        return NO_NUMBER;
    }
    let hours = pair_value(field[0], field[1]);
    if NUMBER_MOST < hours {
        return NO_NUMBER;
    }
    let minutes = pair_value(field[3], field[4]);
    if NUMBER_MOST < minutes {
        return NO_NUMBER;
    }
    if HOURS_MOST < hours {
        return PAST_TIMES;
    }
    if MINUTES_MOST < minutes {
        return PAST_TIMES;
    }
    hours * 60 + minutes
}

// The question whether a value is in the range of its kind of field.
pub fn range_number(kind: u8, value: u32) -> Result<(), Refusal>
    ensures { number_seen result ≡ range_number kind value }
{
    match kind {
        CHANGE_MINUTES => match value {
            0..=240 => Ok(()),
            _ => Err(Refusal::Range),
        },
        CHANGE_PENALTY => match value {
            1..=1000 => Ok(()),
            _ => Err(Refusal::Range),
        },
        TIME => match value {
            0..=2879 => Ok(()),
            _ => Err(Refusal::Range),
        },
        RIDE_PENALTY => match value {
            0..=100 => Ok(()),
            _ => Err(Refusal::Range),
        },
        MARK => match value {
            0..=2 => Ok(()),
            _ => Err(Refusal::Range),
        },
        WALK_MINUTES => match value {
            1..=60 => Ok(()),
            _ => Err(Refusal::Range),
        },
        _ => Ok(()),
    }
}
