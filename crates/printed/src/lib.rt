// The printed session, line by line: what a line does, and the bytes that it prints. Whoever reads and writes calls these, and nothing else
// decides what is printed.
#![tactic(auto)]

ghost use Rattle.std.specs.Prelude.{◌≡◌, ◌+◌, ◌*◌, ◌≤◌, length, IfOk};
ghost use Rattle.words.specs.Words.{part, put};
ghost use Rattle.rules.specs.Run.{shows as shows_work};
ghost use Rattle.searchfile.specs.Promise.{given};
ghost use Rattle.texts.specs.Results.{bad_line};
ghost use Rattle.lines.specs.Lines.{named};
ghost use Rattle.lines.specs.Reading.{call_of, parsed_as, parameters_in};
ghost use Rattle.printed.specs.Output.{start_with, start_of, start_text, played, refusal};
ghost use Rattle.printed.specs.Promise.{told_line, shown, shown_at, turn_end, said, said_at, said_end};

use drum::Description;
use lines::Reading;
use numbers::{AT_END, DONE};
use rules::Call;
use searchfile::Session;

// What the first line makes of the program.
#[derive(Clone, Copy)]
pub enum Start {
    BadLine,
    OutOfRange,
    TooLarge,
    Good { p: Description },
}

// A bad line, which ends the program: the place behind what it printed.
#[derive(Clone, Copy)]
pub struct Over {
    pub at: usize,
}

// A line of calls that was played: the place behind what it printed, and the session to go on with.
#[derive(Clone, Copy)]
pub struct Turn {
    pub at: usize,
    pub session: Session,
}

fn start_with(p: Description) -> Start
    ensures { result ≡ start_with p }
{
    if !p.is_good() {
        return Start::OutOfRange;
    }
    if 8192 < p.file_size() {
        return Start::TooLarge;
    }
    Start::Good { p }
}

// The first line, of what was kept of it.
pub fn start_of(r: Reading, numbers: &[u32]) -> Start
    requires { 6 ≤ length numbers.now }
    ensures { result ≡ start_of (parameters_in r numbers.now) }
{
    match lines::parameters_of(r, numbers) {
        Some(p) => start_with(p),
        None => Start::BadLine,
    }
}

// What the first line prints.
pub fn put_start(start: Start, out: &mut [u8], at: usize) -> usize
    requires { at + 16 ≤ length out.old }
    ensures { (out.new ≡ put out.old at (start_text start)) × (result ≡ at + length (start_text start)) × (result ≤ at + 16) }
{
    match start {
        Start::BadLine => texts::put_bytes(out, at, b"BAD LINE\n"),
        Start::TooLarge => texts::put_bytes(out, at, b"TOO LARGE\n"),
        Start::OutOfRange | Start::Good { .. } => at,
    }
}

// A line that ends the program.
fn bad_line(out: &mut [u8], at: usize) -> Over
    requires { at + 16 ≤ length out.old }
    ensures { (out.new ≡ put out.old at bad_line) × (result.at ≡ at + length bad_line) × (result.at ≤ at + 16) }
{
    Over {
        at: texts::put_bytes(out, at, b"BAD LINE\n"),
    }
}

// A line with parameters out of range, of what was kept of it: the place behind what it printed.
pub fn refuse_line(r: Reading, name: &[u8], out: &mut [u8], at: usize) -> Result<usize, Over>
    requires { at + 16 ≤ length out.old }
    ensures out_value { said result out.new ≡ said_at out.old at (refusal (named (part 0 r.spelled name.now))) }
    ensures at_bound { said_end result ≤ at + 16 }
{
    match lines::call_named(name, r.spelled) {
        Some(call) => Ok(texts::put_refused(out, at, call)),
        None => Err(bad_line(out, at)),
    }
}

// Whether the workspace is printed: "for SEEK and ADV answering 0 or 030002".
#[tactic(auto, unfolding(rules::specs::Run::shows))]
fn shows(call: Call, number: u32) -> bool
    ensures { result ≡ shows_work call number }
{
    match call {
        Call::Seek { .. } | Call::Adv => number == DONE || number == AT_END,
        _ => false,
    }
}

// The line of a call that was performed.
fn tell(call: Call, number: u32, transfers: usize, work: &[u32], out: &mut [u8], at: usize) -> usize
    requires { at + 35 + 21 * length work.now ≤ length out.old }
    ensures { (out.new ≡ put out.old at (told_line call number transfers work.now))
        × (result ≡ at + length (told_line call number transfers work.now))
        × (result ≤ at + 35 + 21 * length work.now) }
{
    let shown = if shows(call, number) {
        work
    } else {
        &work[..0]
    };
    texts::put_result(out, at, call, number, transfers, shown)
}

// A line of calls, of what was kept of it: the call is performed and its result printed, or the line is a bad one.
// File, buffer, workspace and marks are lent one by one, as the session's methods take them: their signatures may not change.
pub fn call_line(
    r: Reading,
    name: &[u8],
    numbers: &[u32],
    s: Session,
    file: &mut [u32],
    buffer: &mut [u32],
    work: &mut [u32],
    marks: &mut [u8],
    out: &mut [u8],
    at: usize,
) -> Result<Turn, Over>
    requires { (s.desc.k ≤ length numbers.now)
        × (s.desc.wpr ≤ length numbers.now)
        × (s.desc.k ≤ length work.old)
        × (s.desc.wpr ≤ length work.old)
        × (length marks.old ≡ s.desc.n)
        × (at + 35 + 21 * length work.old ≤ length out.old) }
    ensures out_value { shown s result file.new buffer.new work.new out.new
        ≡ shown_at out.old at
        (played (given s file.old buffer.old work.old) (parsed_as s.desc (call_of s.desc r name.now) numbers.now)) }
    ensures desc_value { IfOk result (λ t. t.session.desc ≡ s.desc) }
    ensures at_bound { turn_end result ≤ at + 35 + 21 * length work.old }
{
    match lines::call_of(s.desc, r, name) {
        Some(call) => {
            let answer = calls::perform(call, numbers, s, file, buffer, work, marks);
            let end = tell(call, answer.number, answer.transfers, work, out, at);
            Ok(Turn {
                at: end,
                session: answer.session,
            })
        }
        None => Err(bad_line(out, at)),
    }
}
