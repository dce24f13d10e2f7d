//! A reply in one number of 64 bits, as a host of C or Rust gets it.
#![tactic(auto)]

ghost use Rattle.std.specs.Prelude.{◌≡◌, ℕ};
ghost use Rattle.questions.specs.Refused.{question_number, number_seen};
ghost use Rattle.promises.specs.Packed.{packed, packed_reply, packed_count};
ghost use Rattle.replies_packed.specs.Told.{count_told, lines_told, line_number};

use questions::Refusal;
use reading::RefusedLine;

// What 1 in the upper half of a reply counts.
const UPPER: u64 = 4294967296;

// The refusal's number, or 0, in the upper half, and the count or line in the lower.
pub fn pack(number: u32, low: u32) -> u64
    ensures { result ≡ packed number low }
{
    number as u64 * UPPER + low as u64
}

// A refusal that has a number: the question itself, or any number, of a question or of none.
pub trait Numbered {
    ghost number_told: { Self → ℕ };

    fn told_number(self) -> u32
        ensures { result ≡ number_told self };
}

impl Numbered for u32 {
    ghost number_told = { λ n. n };

    fn told_number(self) -> u32 {
        self
    }
}

impl Numbered for Refusal {
    ghost number_told = { question_number };

    fn told_number(self) -> u32 {
        self.number()
    }
}

// A refusal that has a number and a line: of reading, or any two numbers, likewise.
pub trait NumberedLine {
    ghost number_told: { Self → ℕ };

    ghost line_told: { Self → ℕ };

    fn told(self) -> (u32, u32)
        ensures { (result.0 ≡ number_told self) × (result.1 ≡ line_told self) };
}

impl NumberedLine for (u32, u32) {
    ghost number_told = { λ r. r.0 };

    ghost line_told = { λ r. r.1 };

    fn told(self) -> (u32, u32) {
        self
    }
}

impl NumberedLine for RefusedLine {
    ghost number_told = { line_number };

    ghost line_told = { λ r. r.line };

    fn told(self) -> (u32, u32) {
        (self.refusal.number(), self.line)
    }
}

// The reply of a call that reads lines: on a refusal the line stands in the lower half.
pub fn pack_reply<R: NumberedLine>(reply: Result<u32, R>) -> u64
    ensures { result ≡ packed_reply (lines_told R.number_told R.line_told reply) }
{
    match reply {
        Ok(lines) => pack(0, lines),
        Err(refused) => {
            let (number, line) = refused.told();
            pack(number, line)
        }
    }
}

// The reply of a call that counts: a refusal has no line.
pub fn pack_count<R: Numbered>(reply: Result<u32, R>) -> u64
    ensures { result ≡ packed_count (count_told R.number_told reply) }
{
    match reply {
        Ok(count) => pack(0, count),
        Err(refused) => pack(refused.told_number(), 0),
    }
}

// The reply of a call that asks its questions and does no more.
pub fn pack_asked(asked: Result<(), Refusal>) -> u64
    ensures { result ≡ packed (number_seen asked) 0 }
{
    pack(questions::number_of(asked), 0)
}
