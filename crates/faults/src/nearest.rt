// The call whose name is most like a word that names none.
ghost use Rattle.std.specs.Prelude.{◌≡◌, ◌≤◌, ◌-◌, length, drop};
ghost use Rattle.texts.specs.Results.{spelling};
ghost use Rattle.faults.specs.Nearest.{upper as upper_of, same as same_letter, agreeing as agreeing_in, alike as alike_in};
ghost use Rattle.faults.specs.Nearest.{nothing_near, nearer as nearer_of, nearest_in, nearest as nearest_to};
ghost use Rattle.lines.specs.Lines.{kinds};

use lines::KINDS;
use rules::Call;

// A call, the length of its name, and how much the word is like it.
#[derive(Clone, Copy)]
pub struct Near {
    pub call: Call,
    pub size: usize,
    pub score: usize,
}

// A small letter as a capital.
#[tactic(auto, unfolding(crate::specs::Nearest::upper))]
fn upper(b: u8) -> u8
    ensures { result ≡ upper_of b }
{
    b.to_ascii_uppercase()
}

// 1 where `a`, as a capital, is b.
fn same(a: u8, b: u8) -> usize
    ensures { (result ≡ same_letter a b) × (result ≤ 1) }
{
    usize::from(upper(a) == b)
}

// At how many places the bytes of `word` agree with those of `text`.
fn agreeing(word: &[u8], text: &[u8]) -> usize
    ensures { (result ≡ agreeing_in word.now text.now) × (result ≤ length text.now) }
{
    let mut count = 0;
    for i in 0..word.len().min(text.len()) {
        count += same(word[i], text[i]);
    }
    count
}

// The bytes behind the first.
fn behind(text: &[u8]) -> &[u8]
    ensures { result.now ≡ drop 1 text.now }
{
    match text {
        [] => text,
        [_, rest @ ..] => rest,
    }
}

// How much the word is like a text: as it stands, and with a letter left out or added in front.
fn alike(word: &[u8], text: &[u8]) -> usize
    requires { length text.now ≤ 8 }
    ensures { result ≡ alike_in word.now text.now }
{
    let whole = agreeing(word, text);
    let added = agreeing(behind(word), text);
    let left = agreeing(word, behind(text));
    whole + added + left
}

// The call, where the word is more like its name than like the one before.
fn nearer(near: Near, word: &[u8], call: Call) -> Near
    ensures { result ≡ nearer_of word.now near call (spelling call) }
{
    let text = texts::spelling(call);
    let score = alike(word, text);
    if score <= near.score {
        return near;
    }
    Near {
        call,
        size: text.len(),
        score,
    }
}

// The call that the word is most like, the first of equals.
fn nearest_near(word: &[u8]) -> Near
    ensures { result ≡ nearest_in word.now nothing_near kinds }
{
    let mut near = Near {
        call: Call::Create,
        size: 2,
        score: 0,
    };
    for call in KINDS {
        near = nearer(near, word, call);
    }
    near
}

// That call, if no more than one letter of its name is lacking.
pub fn nearest(word: &[u8]) -> Option<Call>
    ensures { result ≡ nearest_to word.now }
{
    let near = nearest_near(word);
    if 1 < near.size.saturating_sub(near.score) {
        return None;
    }
    Some(near.call)
}
