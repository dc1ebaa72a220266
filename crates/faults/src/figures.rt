// The parts that sentences are made of, put into lent bytes one after the other, as in `texts` (and why not Display: there): each from byte `at` on.
ghost use Rattle.std.specs.Prelude.{◌≡◌, ◌+◌, ◌≤◌, length};
ghost use Rattle.faults.specs.Sentences.{visible as visible_of, visibles, figure, takes_text, is_text, suggestion};
ghost use Rattle.faults.specs.Promise.{Wrote, room};

use super::Parameter;
use rules::Call;

// A byte that can be shown, and ? for any other.
#[tactic(auto, unfolding(crate::specs::Sentences::visible))]
fn visible(b: u8) -> u8
    ensures { result ≡ visible_of b }
{
    if b.is_ascii_graphic() { b } else { b'?' }
}

// A word that was read. By number: byte i of it stands at byte at + i.
pub fn put_visible(out: &mut [u8], at: usize, word: &[u8]) -> usize
    requires { at + length word.now ≤ length out.old }
    ensures { Wrote result out at (visibles word.now) (length word.now) }
{
    for i in 0..word.len() {
        out[at + i] = visible(word[i]);
    }
    at + word.len()
}

// A number between two texts.
pub fn put_figure(out: &mut [u8], at: usize, before: &[u8], n: usize, after: &[u8]) -> usize
    requires { at + room before.now after.now ≤ length out.old }
    ensures { Wrote result out at (figure before.now n after.now) (room before.now after.now) }
{
    let text = texts::put_bytes(out, at, before);
    let number = texts::put_decimal(out, text, texts::count(n));
    texts::put_bytes(out, number, after)
}

// How many numbers a call takes.
pub fn put_takes(out: &mut [u8], at: usize, takes: usize) -> usize
    requires { at + 40 ≤ length out.old }
    ensures { Wrote result out at (takes_text takes) 40 }
{
    if takes == 1 {
        return texts::put_bytes(out, at, b" takes 1 number,");
    }
    put_figure(out, at, b" takes", takes, b" numbers,")
}

// What a parameter is.
pub fn put_is(out: &mut [u8], at: usize, what: Parameter, value: usize) -> usize
    requires { at + 40 ≤ length out.old }
    ensures { Wrote result out at (is_text what value) 40 }
{
    match what {
        Parameter::Wpb => put_figure(out, at, b"WPB is", value, b": even,"),
        Parameter::Wpr => put_figure(out, at, b"WPR is", value, b":"),
        Parameter::K => put_figure(out, at, b"K is", value, b":"),
        Parameter::Space => put_figure(out, at, b"SPACE is", value, b":"),
        Parameter::Control => put_figure(out, at, b"CONTROL is", value, b":"),
        Parameter::N => put_figure(out, at, b"N is", value, b":"),
    }
}

// The call that may be meant.
pub fn put_suggestion(out: &mut [u8], at: usize, near: Option<Call>) -> usize
    requires { at + 9 ≤ length out.old }
    ensures { Wrote result out at (suggestion near) 9 }
{
    match near {
        None => at,
        Some(call) => {
            let mark = texts::put_bytes(out, at, b"; ");
            let named = texts::put_name(out, mark, call);
            texts::put_bytes(out, named, b"?")
        }
    }
}
