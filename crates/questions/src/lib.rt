//! The questions that document 01 puts to each call, in their order: the first no ends it, and is the call's refusal.
#![tactic(auto)]

ghost use Rattle.std.specs.Prelude.{◌≡◌};
ghost use Rattle.questions.specs.Refused.{question_number, number_seen};

// The question that has the first no. Each has its number in document 01, or 02.
#[derive(Clone, Copy, PartialEq, Eq)]
pub enum Refusal {
    // 1: the text has too many bytes.
    TextTooLong,
    // 2: a line is of no shape.
    Shape,
    // 3: a value is out of range.
    Range,
    // 4: a line is out of place.
    Place,
    // 5: one too many.
    Count,
    // 6: a walk or a stop does not fit.
    Fit,
    // 7: the end comes too early.
    End,
    // 8: a lent slice is too short.
    Space,
    // 9: the words come from no accepted text, changed or not.
    NoTimetable,
    // 10: the line tables are not those of the timetable.
    OtherTables,
    // 11: a station or line is not there, or from and to are one.
    NotNamed,
    // 12: the minute is past the two days.
    Minute,
    // 13: the store is not well made.
    NoStore,
    // 14: there is no connection.
    NoConnection,
    // 15: the answer or the store is too long for its slice.
    Room,
    // 18: the trip to cancel is not running.
    NotRunning,
    // 19: the trip to add is running already.
    Running,
}

impl Refusal {
    // The number that a call returns for it.
    pub fn number(self) -> u32
        ensures { result ≡ question_number self }
    {
        match self {
            Refusal::TextTooLong => 1,
            Refusal::Shape => 2,
            Refusal::Range => 3,
            Refusal::Place => 4,
            Refusal::Count => 5,
            Refusal::Fit => 6,
            Refusal::End => 7,
            Refusal::Space => 8,
            Refusal::NoTimetable => 9,
            Refusal::OtherTables => 10,
            Refusal::NotNamed => 11,
            Refusal::Minute => 12,
            Refusal::NoStore => 13,
            Refusal::NoConnection => 14,
            Refusal::Room => 15,
            Refusal::NotRunning => 18,
            Refusal::Running => 19,
        }
    }
}

// The number of what was asked: 0 where each question has its yes.
pub fn number_of(asked: Result<(), Refusal>) -> u32
    ensures { result ≡ number_seen asked }
{
    match asked {
        Ok(()) => 0,
        Err(refusal) => refusal.number(),
    }
}
