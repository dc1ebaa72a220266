// The sentence that says what is wrong with a line.
ghost use Rattle.std.specs.Prelude.{◌+◌, ◌≤◌, length};
ghost use Rattle.faults.specs.Sentences.{no_call_text, count_text, range_text, fault_text, sentence};
ghost use Rattle.faults.specs.Promise.{Wrote};

use super::figures::{put_figure, put_is, put_suggestion, put_takes, put_visible};
use super::{Fault, Parameter};
use rules::Call;

fn put_no_call(out: &mut [u8], at: usize, word: &[u8], near: Option<Call>) -> usize
    requires { (at + 40 ≤ length out.old) × (length word.now ≤ 8) }
    ensures { Wrote result out at (no_call_text word.now near) 40 }
{
    let shown = put_visible(out, at, word);
    let said = texts::put_bytes(out, shown, b" is no call");
    put_suggestion(out, said, near)
}

fn put_count(out: &mut [u8], at: usize, call: Call, takes: usize, given: usize) -> usize
    requires { at + 100 ≤ length out.old }
    ensures { Wrote result out at (count_text call takes given) 100 }
{
    let named = texts::put_name(out, at, call);
    let taken = put_takes(out, named, takes);
    put_figure(out, taken, b"", given, b" given")
}

fn put_range(
    out: &mut [u8],
    at: usize,
    what: Parameter,
    value: usize,
    least: usize,
    most: usize,
) -> usize
    requires { at + 100 ≤ length out.old }
    ensures { Wrote result out at (range_text what value least most) 100 }
{
    let is = put_is(out, at, what, value);
    let low = put_figure(out, is, b"", least, b" to");
    put_figure(out, low, b"", most, b"")
}

fn put_fault(out: &mut [u8], at: usize, word: &[u8], fault: Fault) -> usize
    requires { (at + 120 ≤ length out.old) × (length word.now ≤ 8) }
    ensures { Wrote result out at (fault_text word.now fault) 120 }
{
    match fault {
        Fault::Empty => texts::put_bytes(out, at, b"no word; a call is expected"),
        Fault::NotPlayed => texts::put_bytes(out, at, b"VIEW is not played"),
        Fault::NoCall { nearest } => put_no_call(out, at, word, nearest),
        Fault::Count { call, takes, given } => put_count(out, at, call, takes, given),
        Fault::NoNumber { word: n } => put_figure(out, at, b"word", n, b" is no number"),
        Fault::AboveTop => texts::put_bytes(out, at, b"a number is above 4294967295"),
        Fault::NotSix { given } => {
            put_figure(
                out,
                at,
                b"WPB WPR K SPACE CONTROL N are expected, 6 numbers,",
                given,
                b" given",
            )
        }
        Fault::OutOfRange {
            what,
            value,
            least,
            most,
        } => put_range(out, at, what, value, least, most),
        Fault::TooLarge { size } => put_figure(
            out,
            at,
            b"the file has",
            size,
            b" words, 8192 at most are played",
        ),
    }
}

// The sentence about line number `line`, whose first word is `word`.
pub fn put_sentence(out: &mut [u8], line: usize, word: &[u8], fault: Fault) -> usize
    requires { (160 ≤ length out.old) × (length word.now ≤ 8) }
    ensures { Wrote result out 0 (sentence line word.now fault) 160 }
{
    let placed = put_figure(out, 0, b"line", line, b": ");
    let said = put_fault(out, placed, word, fault);
    texts::put_bytes(out, said, b"\n")
}
