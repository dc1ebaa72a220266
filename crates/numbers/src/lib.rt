// Document 01, "Numbers returned (octal)": what a call answers. An answer's number stays a word: C has it so, and a caller compares it with these.
#![tactic(auto)]

ghost use Rattle.std.specs.Prelude.{◌≡◌, ◌≤◌, IfOk};
ghost use Rattle.numbers.specs.Numbers.{accepted};
ghost use Rattle.numbers.specs.Checked.{require as required, within as within_of, up_to as up_to_of};
ghost use Rattle.numbers.specs.Refused.{checked, tested, number_of};

pub const DONE: u32 = 0o000000;

pub const NOT_FOUND: u32 = 0o000001;

pub const OUT_OF_SEQUENCE: u32 = 0o000005;

pub const IS_CLOSED: u32 = 0o020005;

pub const ALREADY_OPEN: u32 = 0o020006;

pub const WRONG_SIZE: u32 = 0o020007;

pub const READING_ONLY: u32 = 0o020010;

pub const WRONG_LENGTH: u32 = 0o020012;

pub const WRONG_KEY: u32 = 0o030001;

pub const AT_END: u32 = 0o030002;

pub const NOT_ALLOWED: u32 = 0o030007;

pub const NONE_FREE: u32 = 0o070001;

pub const NO_ROOM: u32 = 0o070002;

pub const BAD_FILE: u32 = 0o070003;

// Why a call stops before it changes anything: the numbers of the table that leave all unchanged.
#[derive(Clone, Copy, Debug, PartialEq, Eq)]
pub enum Refusal {
    WrongSize,
    AlreadyOpen,
    IsClosed,
    ReadingOnly,
    WrongLength,
    WrongKey,
    AtEnd,
    NoRoom,
    BadFile,
}

impl From<Refusal> for u32 {
    ghost use Rattle.std.specs.Prelude.{◌≡◌};
    ghost use Rattle.numbers.specs.Refused.{number_of};

    ghost from_gives = { λ r n. n ≡ number_of r };

    fn from(refusal: Refusal) -> u32 {
        match refusal {
            Refusal::WrongSize => WRONG_SIZE,
            Refusal::AlreadyOpen => ALREADY_OPEN,
            Refusal::IsClosed => IS_CLOSED,
            Refusal::ReadingOnly => READING_ONLY,
            Refusal::WrongLength => WRONG_LENGTH,
            Refusal::WrongKey => WRONG_KEY,
            Refusal::AtEnd => AT_END,
            Refusal::NoRoom => NO_ROOM,
            Refusal::BadFile => BAD_FILE,
        }
    }
}

// Whether NSERT, UPDAT, XTEND or DLETE has done what it was asked for: 0, or 070001 for a record stored in what is now a full file.
pub fn is_accepted(number: u32) -> bool
    ensures { result ≡ accepted number }
{
    number == DONE || number == NONE_FREE
}

// Nothing where the test holds, else the refusal.
pub fn require(test: bool, refusal: Refusal) -> Result<(), Refusal>
    ensures { tested result ≡ required test (number_of refusal) }
{
    if test { Ok(()) } else { Err(refusal) }
}

// The number x if it is one of least..most, else it is a bad number.
pub fn within(least: usize, most: usize, x: usize) -> Result<usize, Refusal>
    ensures step { checked result ≡ within_of least most x }
    ensures range { IfOk result (λ y. (y ≡ x) × (least ≤ y) × (y ≤ most)) }
{
    if least <= x && x <= most {
        Ok(x)
    } else {
        Err(Refusal::BadFile)
    }
}

// The number x if it is one of 0..most, else it is a bad number.
// Beside `within`: the definitions have both steps.
pub fn up_to(most: usize, x: usize) -> Result<usize, Refusal>
    ensures step { checked result ≡ up_to_of most x }
    ensures range { IfOk result (λ y. (y ≡ x) × (y ≤ most)) }
{
    if x <= most {
        Ok(x)
    } else {
        Err(Refusal::BadFile)
    }
}
