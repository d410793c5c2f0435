// What a call is answered, and what became of it.
ghost use Rattle.std.specs.Prelude.{◌≡◌};
ghost use Rattle.record.specs.Answers.{answer_number, class_of, is_done, refuses, is_protected};

use std::fmt;

// What a call is answered, with the papers' number for it.
#[derive(Clone, Copy, PartialEq, Eq)]
pub enum Answer {
    Done = 0,
    Size = 1,
    Sample = 2,
    State = 3,
    Short = 4,
    Unknown = 5,
    Asleep = 6,
    Address = 7,
    Latch = 8,
    Protected = 9,
    Reserved = 10,
    Long = 11,
    Unarmed = 12,
    Turn = 13,
}

// Its name.
impl fmt::Display for Answer {
    fn fmt<W: fmt::Write>(&self, f: &mut fmt::Formatter<W>) -> fmt::Result {
        f.write_str(match self {
            Answer::Done => "DONE",
            Answer::Size => "SIZE",
            Answer::Sample => "SAMPLE",
            Answer::State => "STATE",
            Answer::Short => "SHORT",
            Answer::Unknown => "UNKNOWN",
            Answer::Asleep => "ASLEEP",
            Answer::Address => "ADDRESS",
            Answer::Latch => "LATCH",
            Answer::Protected => "PROTECTED",
            Answer::Reserved => "RESERVED",
            Answer::Long => "LONG",
            Answer::Unarmed => "UNARMED",
            Answer::Turn => "TURN",
        })
    }
}

impl From<Answer> for u8 {
    ghost from_gives = { λ a number. number ≡ answer_number a };

    fn from(a: Answer) -> u8 {
        a as u8
    }
}

// What became of a call: it was done, it was refused and nothing was clocked, or the device declined what was
// clocked (D53).
#[derive(Clone, Copy, PartialEq, Eq)]
pub enum Class {
    Done,
    Refused,
    Declined,
}

pub fn class_of(a: Answer) -> Class
    ensures { result ≡ class_of a }
{
    match a {
        Answer::Done => Class::Done,
        Answer::Size | Answer::Sample | Answer::State | Answer::Turn => Class::Refused,
        Answer::Short
        | Answer::Unknown
        | Answer::Asleep
        | Answer::Address
        | Answer::Latch
        | Answer::Protected
        | Answer::Reserved
        | Answer::Long
        | Answer::Unarmed => Class::Declined,
    }
}

// The command was done.
pub fn is_done(a: Answer) -> bool
    ensures { result ≡ is_done a }
{
    a == Answer::Done
}

// The call was refused.
pub fn is_refusal(a: Answer) -> bool
    ensures { result ≡ refuses a }
{
    class_of(a) == Class::Refused
}

// 9: every byte of the burst was protected.
pub fn is_protected(a: Answer) -> bool
    ensures { result ≡ is_protected a }
{
    a == Answer::Protected
}
