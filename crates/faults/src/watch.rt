// What a fault is told by, beside what `lines` keeps of a line: how many words it has, and the first that is not all digits.
ghost use Rattle.std.specs.Prelude.{◌≡◌, ◌≤◌, ◌-◌, length, drop};
ghost use Rattle.faults.specs.Watching.{unwatched, words_with, odd_with, seen, watched};

use lines::{is_blank, is_digit};

// Whether the first word is a name; whether a word is being read; how many words have begun; which was the first with a byte that is no digit, a
// name left out.
#[derive(Clone, Copy)]
pub struct Watch {
    pub named: bool,
    pub inside: bool,
    pub words: usize,
    pub odd: Option<usize>,
}

impl Watch {
    // A line of which nothing is read.
    pub fn new(named: bool) -> Self
        ensures { result ≡ unwatched named }
    {
        Self {
            named,
            inside: false,
            words: 0,
            odd: None,
        }
    }

    // How many words stand behind the first.
    pub fn behind(self) -> usize
        ensures { result ≡ self.words - 1 }
    {
        self.words.saturating_sub(1)
    }

    // How many words have begun with a byte more of one.
    fn words_with(self) -> usize
        ensures { result ≡ words_with self }
    {
        if self.inside {
            return self.words;
        }
        if self.words < 4294967295 {
            return self.words + 1;
        }
        self.words
    }

    // The first word that is not all digits, where b is a byte of word n.
    #[tactic(auto, unfolding(crate::specs::Watching::odd_with))]
    fn odd_with(self, n: usize, b: u8) -> Option<usize>
        ensures { result ≡ odd_with self n b }
    {
        if self.odd.is_some() || is_digit(b) || self.named && n == 1 {
            return self.odd;
        }
        Some(n)
    }

    // A byte of the line.
    fn push(self, b: u8) -> Self
        ensures { result ≡ seen self b }
    {
        if is_blank(b) {
            return Self {
                inside: false,
                ..self
            };
        }
        let n = self.words_with();
        Self {
            inside: true,
            words: n,
            odd: self.odd_with(n, b),
            ..self
        }
    }
}

// Looks at bytes from place `from` on, up to the first line feed.
// Not within its caller, as `lines::take`.
#[inline(never)]
pub fn look(w: Watch, bytes: &[u8], from: usize) -> Watch
    requires { from ≤ length bytes.now }
    ensures { result ≡ watched w (drop from bytes.now) }
{
    let mut seen = w;
    for b in &bytes[from..] {
        if *b == b'\n' {
            return seen;
        }
        seen = seen.push(*b);
    }
    seen
}
