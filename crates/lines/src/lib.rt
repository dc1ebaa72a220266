// Lines of a session, read byte by byte: what a line says is kept in a few numbers and two lent slices, so a line may be of any length.
#![tactic(auto)]

mod bytes;
mod names;

ghost use Rattle.std.specs.Prelude.{◌≡◌, List, ℕ, ◌+◌, ◌*◌, ◌-◌, ◌≤◌, cond, Some, None, length, drop};
ghost use Rattle.lines.specs.Reading.{unread, stays_number, word_read, letter as letter_read, resting as resting_at};
ghost use Rattle.lines.specs.Reading.{counted as word_counted, another, rested, step};
ghost use Rattle.lines.specs.Promise.{took, read, to_line_feed};

pub use bytes::{is_blank, is_digit};
pub use names::{KINDS, call_named, call_of, carries, is_name, parameters_of};

// What is kept of the bytes of a line: whether there were any; whether a word is being read; whether it is a number so far, and its value;
// how many words were no numbers (2 stands for more), how many were, and how many bytes of the first one are kept.
// Flags, counts and value stay as the definitions of specs/Reading have them (they keep the value of a word that is none); name and numbers are lent
// anew for each part of the input.
#[derive(Clone, Copy)]
pub struct Reading {
    pub begun: bool,
    pub inside: bool,
    pub number: bool,
    pub value: u32,
    pub others: usize,
    pub numbers: usize,
    pub spelled: usize,
}

// How far a part of the input was read: the place behind it, and whether a line ended there.
#[derive(Clone, Copy)]
pub struct Taken {
    pub reading: Reading,
    pub at: usize,
    pub ended: bool,
}

impl Reading {
    // A line of which nothing is read.
    pub fn new() -> Self
        ensures { result ≡ unread }
    {
        Self {
            begun: false,
            inside: false,
            number: true,
            value: 0,
            others: 0,
            numbers: 0,
            spelled: 0,
        }
    }

    // Between words.
    fn resting(spelled: usize, others: usize, numbers: usize) -> Self
        ensures { result ≡ resting_at spelled others numbers }
    {
        Self {
            begun: true,
            inside: false,
            number: true,
            value: 0,
            others,
            numbers,
            spelled,
        }
    }

    // The value of the word with b behind it, if it is a number then.
    fn value_with(self, b: u8) -> Option<u32>
        ensures { result ≡ cond (stays_number self.number self.value b) (Some (self.value * 10 + (b - 48))) None }
    {
        if !self.number || !is_digit(b) {
            return None;
        }
        self.value.checked_mul(10)?.checked_add(u32::from(b - b'0'))
    }

    // The word goes on with b.
    fn with_byte(self, b: u8) -> Self
        ensures { result ≡ word_read self b }
    {
        let value = self.value_with(b);
        Self {
            begun: true,
            inside: true,
            number: value.is_some(),
            value: value.unwrap_or(self.value),
            ..self
        }
    }

    // A byte of a word; those of the first word are kept, as far as there is room.
    fn letter(self, b: u8, name: &mut [u8]) -> Self
        ensures { (numbers : List ℕ) → read result name.new numbers ≡ letter_read (read self name.old numbers) b }
    {
        let next = self.with_byte(b);
        if self.others == 0 && self.numbers == 0 && self.spelled < name.len() {
            name[self.spelled] = b;
            return Self {
                spelled: self.spelled + 1,
                ..next
            };
        }
        next
    }

    // One word more that is no number.
    fn other(self) -> Self
        ensures { result ≡ resting_at self.spelled (another self.others) self.numbers }
    {
        let others = if self.others < 2 {
            self.others + 1
        } else {
            self.others
        };
        Self::resting(self.spelled, others, self.numbers)
    }

    // The word that was read counts as a number, which is kept, or as another word.
    fn counted(self, numbers: &mut [u32]) -> Self
        ensures { (name : List ℕ) → read result name numbers.new ≡ word_counted (read self name numbers.old) }
    {
        if self.number && self.numbers < numbers.len() {
            numbers[self.numbers] = self.value;
            return Self::resting(self.spelled, self.others, self.numbers + 1);
        }
        self.other()
    }

    // A blank, or the line's end.
    pub fn rest(self, numbers: &mut [u32]) -> Self
        ensures { (name : List ℕ) → read result name numbers.new ≡ rested (read self name numbers.old) }
    {
        if self.inside {
            return self.counted(numbers);
        }
        Self::resting(self.spelled, self.others, self.numbers)
    }

    // A byte of the line.
    fn push(self, b: u8, name: &mut [u8], numbers: &mut [u32]) -> Self
        ensures { read result name.new numbers.new ≡ step (read self name.old numbers.old) b }
    {
        if is_blank(b) {
            return self.rest(numbers);
        }
        self.letter(b, name)
    }
}

// Reads bytes from place `from` on, up to and with the first line feed.
// Not within its caller, where what it keeps of a byte would lie on the stack.
#[inline(never)]
pub fn take(r: Reading, bytes: &[u8], from: usize, name: &mut [u8], numbers: &mut [u32]) -> Taken
    requires { from ≤ length bytes.now }
    ensures { took result name.new numbers.new
        ≡ to_line_feed (read r name.old numbers.old) from (drop from bytes.now) }
{
    let mut reading = r;
    // By number: the place behind the line feed is answered.
    for i in from..bytes.len() {
        if bytes[i] == b'\n' {
            return Taken {
                reading: reading.rest(numbers),
                at: i + 1,
                ended: true,
            };
        }
        reading = reading.push(bytes[i], name, numbers);
    }
    Taken {
        reading,
        at: bytes.len(),
        ended: false,
    }
}
