// Words in slices of u32: copied, moved, cleared, tested and compared. Every contract is one equation between lists.
// Place and length stand beside the slice: callers name words of one file, and a caller that cuts would say the same bounds.
#![tactic(auto)]

ghost use Rattle.std.specs.Prelude.{◌≡◌, ◌+◌, ◌≤◌, ◌<◌, length, get_or, set};
ghost use Rattle.words.specs.Words.{part, put, zeros, all_are, all_words};
ghost use Rattle.words.specs.Keys.{order, key_lt, same_key};

use std::cmp::Ordering;

// Writes the n words of src from word `from` on over those of dst from word `at` on.
// By number: the library's `copy_from_slice` becomes a call of `memmove`, which an archive for C would then need from outside.
pub fn copy_words(dst: &mut [u32], at: usize, src: &[u32], from: usize, n: usize)
    requires { (at + n ≤ length dst.old) × (from + n ≤ length src.now) }
    ensures { dst.new ≡ put dst.old at (part from n src.now) }
{
    for i in 0..n {
        dst[at + i] = src[from + i];
    }
}

// Writes zeros over the n words of t from word `at` on.
pub fn zero_words(t: &mut [u32], at: usize, n: usize)
    requires { at + n ≤ length t.old }
    ensures { t.new ≡ put t.old at (zeros n) }
{
    t[at..at + n].fill(0);
}

// Moves n words of t from word `from` on to word `to` on: the two places may overlap.
pub fn move_words(t: &mut [u32], from: usize, to: usize, n: usize)
    requires { (from + n ≤ length t.old) × (to + n ≤ length t.old) }
    ensures { t.new ≡ put t.old to (part from n t.old) }
{
    t.copy_within(from..from + n, to);
}

// How the key of k words at word i of a stands to the one at word j of b.
// By word: the library's comparison of slices is told by a definition of its own, which nothing here ties to `order`.
pub fn compare_keys(a: &[u32], i: usize, b: &[u32], j: usize, k: usize) -> Ordering
    requires { (i + k ≤ length a.now) × (j + k ≤ length b.now) }
    ensures { result ≡ order (part i k a.now) (part j k b.now) }
{
    for m in 0..k {
        let stands = a[i + m].cmp(&b[j + m]);
        if stands.is_ne() {
            return stands;
        }
    }
    Ordering::Equal
}

// Whether the key of k words at word i of a is below the one at word j of b.
pub fn key_below(a: &[u32], i: usize, b: &[u32], j: usize, k: usize) -> bool
    requires { (i + k ≤ length a.now) × (j + k ≤ length b.now) }
    ensures { result ≡ key_lt (part i k a.now) (part j k b.now) }
{
    compare_keys(a, i, b, j, k).is_lt()
}

// Whether the key of k words at word i of a is the one at word j of b.
pub fn same_key(a: &[u32], i: usize, b: &[u32], j: usize, k: usize) -> bool
    requires { (i + k ≤ length a.now) × (j + k ≤ length b.now) }
    ensures { result ≡ same_key (part i k a.now) (part j k b.now) }
{
    compare_keys(a, i, b, j, k).is_eq()
}

// Whether each of the n words of t from word a on is x.
pub fn all_are(t: &[u32], a: usize, n: usize, x: u32) -> bool
    requires { a + n ≤ length t.now }
    ensures { result ≡ all_are x (part a n t.now) }
{
    t[a..a + n].iter().all(|word| *word == x)
}

// Whether none of the n words of t from word a on is above 262143.
pub fn all_words(t: &[u32], a: usize, n: usize) -> bool
    requires { a + n ≤ length t.now }
    ensures { result ≡ all_words (part a n t.now) }
{
    t[a..a + n].iter().all(|word| *word <= 262143)
}

// The word of t at word i, as a number to count or to reach a place with.
pub fn word_at(t: &[u32], i: usize) -> usize
    requires { i < length t.now }
    ensures { result ≡ get_or t.now i 0 }
{
    t[i] as usize
}

// Writes a number as the word of t at word i.
pub fn put_word(t: &mut [u32], i: usize, x: usize)
    requires { (i < length t.old) × (x ≤ 262143) }
    ensures { t.new ≡ set t.old i x }
{
    t[i] = x as u32;
}
