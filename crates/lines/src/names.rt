// What a line says, of what was kept of it: the call that its first word names, or the parameters.
ghost use Rattle.std.specs.Prelude.{◌≡◌, ◌≤◌, length};
ghost use Rattle.words.specs.Words.{part};
ghost use Rattle.words.specs.Keys.{same_key};
ghost use Rattle.lines.specs.Lines.{named, described, carries as carried};
ghost use Rattle.lines.specs.Reading.{call_of, parameters_in};

use crate::Reading;
use drum::Description;
use rules::Call;
use texts::spelling;

// The calls that a line may name.
pub const KINDS: [Call; 9] = [
    Call::Create,
    Call::Open,
    Call::Close,
    Call::Seek { at: 0 },
    Call::Adv,
    Call::Nsert { at: 0 },
    Call::Dlete { at: 0 },
    Call::Updat { at: 0 },
    Call::Xtend { at: 0 },
];

// Whether the first n bytes of name are those of text.
pub fn is_name(name: &[u8], n: usize, text: &[u8]) -> bool
    requires { n ≤ length name.now }
    ensures { result ≡ same_key (part 0 n name.now) text.now }
{
    &name[..n] == text
}

// The call that a word names.
fn call_spelled(word: &[u8]) -> Option<Call>
    ensures { result ≡ named word.now }
{
    for call in KINDS {
        if word == spelling(call) {
            return Some(call);
        }
    }
    None
}

// The call that the first n bytes of `name` name, or all of them if there are no n.
// The length stands beside the slice: n may pass the room of the name, and then all of it counts (specs/Reading: spelled).
pub fn call_named(name: &[u8], n: usize) -> Option<Call>
    ensures { result ≡ named (part 0 n name.now) }
{
    let kept = n.min(name.len());
    call_spelled(&name[..kept])
}

// How many numbers stand on the line of such a call.
#[tactic(auto, unfolding(crate::specs::Lines::carries))]
pub fn carries(p: Description, call: Call) -> usize
    ensures { result ≡ carried p call }
{
    match call {
        Call::Create | Call::Open | Call::Close | Call::Adv => 0,
        Call::Seek { .. } | Call::Dlete { .. } => p.k,
        Call::Nsert { .. } | Call::Updat { .. } | Call::Xtend { .. } => p.wpr,
    }
}

// The call that a line is, of what was kept of it.
pub fn call_of(p: Description, r: Reading, name: &[u8]) -> Option<Call>
    ensures { result ≡ call_of p r name.now }
{
    let call = call_named(name, r.spelled)?;
    if r.others == 1 && r.numbers == carries(p, call) {
        return Some(call);
    }
    None
}

// The description that the first six numbers are.
fn set_up(numbers: &[u32]) -> Description
    requires { 6 ≤ length numbers.now }
    ensures { result ≡ described numbers.now }
{
    Description::new()
        .with_wpb(words::word_at(numbers, 0))
        .with_wpr(words::word_at(numbers, 1))
        .with_k(words::word_at(numbers, 2))
        .with_space(words::word_at(numbers, 3))
        .with_control(words::word_at(numbers, 4))
        .with_n(words::word_at(numbers, 5))
}

// The parameters that a first line gives, of what was kept of it.
pub fn parameters_of(r: Reading, numbers: &[u32]) -> Option<Description>
    requires { 6 ≤ length numbers.now }
    ensures { result ≡ parameters_in r numbers.now }
{
    if r.others == 0 && r.numbers == 6 {
        return Some(set_up(numbers));
    }
    None
}
