// What the printed session writes, as bytes put into a lent slice one after the other. Each function writes from byte `at` on and answers
// the place behind what it wrote.
// Bytes and place stay two parameters: callers keep the place from line to line and lend the bytes anew, so a struct of both is no plainer.
// Not Display and write!: the promise fixes every byte.
#![tactic(auto)]

ghost use Rattle.std.specs.Prelude.{◌≡◌, ◌+◌, ◌*◌, ◌≤◌, ◌<◌, ◌∷◌, length};
ghost use Rattle.words.specs.Words.{put};
ghost use Rattle.texts.specs.Texts.{digits, places as places_of, decimal, octal, listed};
ghost use Rattle.texts.specs.Results.{spelling, result_text, refused_text};

use rules::Call;

// The bytes of `text`.
pub fn put_bytes(out: &mut [u8], at: usize, text: &[u8]) -> usize
    requires { at + length text.now ≤ length out.old }
    ensures { (out.new ≡ put out.old at text.now) × (result ≡ at + length text.now) }
{
    let end = at + text.len();
    out[at..end].copy_from_slice(text);
    end
}

// How many decimal digits n has. A `while`: it goes by what is left of n, and no index is counted.
fn places(n: u64) -> usize
    ensures { (result ≡ places_of 19 n) × (result ≤ 20) }
{
    let mut k = 1;
    let mut rest = n;
    while 10 <= rest {
        rest /= 10;
        k += 1;
    }
    k
}

// The last k digits of n to the base `base`, the last one first: each is what is left of n.
fn put_digits(out: &mut [u8], at: usize, base: u64, k: usize, n: u64) -> usize
    requires { (at + k ≤ length out.old) × (2 ≤ base) × (base ≤ 10) }
    ensures { (out.new ≡ put out.old at (digits base k n)) × (result ≡ at + k) }
{
    let mut rest = n;
    for i in (0..k).rev() {
        out[at + i] = b'0' + (rest % base) as u8;
        rest /= base;
    }
    at + k
}

// A count as the number that is printed: the library has no From of usize for u64.
pub fn count(x: usize) -> u64
    ensures { result ≡ x }
{
    x as u64
}

// A result's number as six octal digits, after a space.
fn put_number(out: &mut [u8], at: usize, n: u32) -> usize
    requires { at + 7 ≤ length out.old }
    ensures { (out.new ≡ put out.old at (32 ∷ octal n)) × (result ≡ at + length (32 ∷ octal n)) × (result ≤ at + 7) }
{
    out[at] = b' ';
    put_digits(out, at + 1, 8, 6, u64::from(n))
}

// A number in decimal, after a space.
pub fn put_decimal(out: &mut [u8], at: usize, n: u64) -> usize
    requires { at + 21 ≤ length out.old }
    ensures { (out.new ≡ put out.old at (32 ∷ decimal n)) × (result ≡ at + length (32 ∷ decimal n)) × (result ≤ at + 21) }
{
    out[at] = b' ';
    let k = places(n);
    put_digits(out, at + 1, 10, k, n)
}

// Words in decimal, each after a space.
fn put_listed(out: &mut [u8], at: usize, words: &[u32]) -> usize
    requires { at + 21 * length words.now ≤ length out.old }
    ensures { (out.new ≡ put out.old at (listed words.now))
        × (result ≡ at + length (listed words.now))
        × (result ≤ at + 21 * length words.now) }
{
    let mut end = at;
    for word in words {
        end = put_decimal(out, end, u64::from(*word));
    }
    end
}

// A call's name.
#[tactic(auto, unfolding(crate::specs::Results::spelling, crate::specs::Texts::bytes))]
pub fn spelling(call: Call) -> &'static [u8]
    ensures { result.now ≡ spelling call }
{
    match call {
        Call::Create => b"CREATE",
        Call::Open => b"OPEN",
        Call::Close => b"CLOSE",
        Call::Seek { .. } => b"SEEK",
        Call::Adv => b"ADV",
        Call::Nsert { .. } => b"NSERT",
        Call::Dlete { .. } => b"DLETE",
        Call::Updat { .. } => b"UPDAT",
        Call::Xtend { .. } => b"XTEND",
    }
}

// The same, written.
pub fn put_name(out: &mut [u8], at: usize, call: Call) -> usize
    requires { at + 6 ≤ length out.old }
    ensures { (out.new ≡ put out.old at (spelling call)) × (result ≡ at + length (spelling call)) × (result ≤ at + 6) }
{
    put_bytes(out, at, spelling(call))
}

// The line of a call that was performed; `shown` is the workspace, or no word where it is not asked for.
pub fn put_result(
    out: &mut [u8],
    at: usize,
    call: Call,
    number: u32,
    transfers: usize,
    shown: &[u32],
) -> usize
    requires { at + 35 + 21 * length shown.now ≤ length out.old }
    ensures { (out.new
        ≡ put out.old at (result_text call (record { number = number; count = transfers; shown = shown.now })))
        × (result ≡ at + length (result_text call (record { number = number; count = transfers; shown = shown.now })))
        × (result ≤ at + 35 + 21 * length shown.now) }
{
    let named = put_name(out, at, call);
    let numbered = put_number(out, named, number);
    let counted = put_decimal(out, numbered, count(transfers));
    let end = put_listed(out, counted, shown);
    out[end] = b'\n';
    end + 1
}

// The line of a call whose parameters are out of range.
pub fn put_refused(out: &mut [u8], at: usize, call: Call) -> usize
    requires { at + 16 ≤ length out.old }
    ensures { (out.new ≡ put out.old at (refused_text call)) × (result ≡ at + length (refused_text call)) × (result ≤ at + 16) }
{
    let named = put_name(out, at, call);
    put_bytes(out, named, b" 020007 0\n")
}
