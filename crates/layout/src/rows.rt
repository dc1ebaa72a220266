// The rows of a block, and what its records must be: counts, keys that ascend, the end record.
ghost use Rattle.std.specs.Prelude.{◌≡◌, ◌+◌, ◌*◌, ◌≤◌, length, IfOk};
ghost use Rattle.layout.specs.Inspect.{above as is_above, ascends as ascending, end_ok, last_row, records_ok, rows_in};
ghost use Rattle.layout.specs.Inspected.{found};

use drum::{Description, kinds};
use numbers::{Refusal, require, within};
use table::Shape;

// Where the last of the n rows from place a on begins.
pub fn last_row(f: &[u32], a: usize, stride: usize, n: usize) -> usize
    requires { (1 ≤ n) × (a + n * stride ≤ length f.now) }
    ensures { (result ≡ last_row a stride n) × (result + stride ≤ length f.now) }
{
    a + (n - 1) * stride
}

// Whether the key at place a is above the one at low, if there is one.
// Place 0 for none, as the definitions have it.
pub fn above(p: Description, f: &[u32], low: usize, a: usize) -> bool
    requires { (low + p.k ≤ length f.now) × (a + p.k ≤ length f.now) }
    ensures { result ≡ is_above p f.now low a }
{
    low == 0 || words::key_below(f, low, f, a, p.k)
}

// Whether the keys of the n rows from place a on ascend, the first above the one at low.
pub fn ascends(p: Description, f: &[u32], stride: usize, low: usize, a: usize, n: usize) -> bool
    requires { (low + p.k ≤ length f.now) × (p.k ≤ stride) × (a + n * stride ≤ length f.now) }
    ensures { result ≡ ascending p f.now stride low a n }
{
    let mut before = low;
    for i in 0..n {
        let at = a + i * stride;
        if !above(p, f, before, at) {
            return false;
        }
        before = at;
    }
    true
}

// Whether the record at place r is the end record, if the bound at place e is ONES.
pub fn end_ok(p: Description, f: &[u32], e: usize, r: usize) -> bool
    requires { (e + p.k ≤ length f.now) × (r + p.wpr ≤ length f.now) × (p.k ≤ p.wpr) }
    ensures { result ≡ end_ok p f.now e r }
{
    let k = p.k;
    !words::all_are(f, e, k, 262143)
        || words::all_are(f, r, k, 262143) && words::all_are(f, r + k, p.wpr - k, 0)
}

// Whether the n records from place a on are good under the entry at place e.
pub fn records_ok(p: Description, f: &[u32], low: usize, e: usize, a: usize, n: usize) -> bool
    requires { (low + p.k ≤ length f.now)
        × (e + p.k ≤ length f.now)
        × (a + n * p.wpr ≤ length f.now)
        × (1 ≤ n)
        × (p.k ≤ p.wpr) }
    ensures { result ≡ records_ok p f.now low e a n }
{
    let r = last_row(f, a, p.wpr, n);
    ascends(p, f, p.wpr, low, a, n) && !words::key_below(f, e, f, r, p.k) && end_ok(p, f, e, r)
}

// The count of the rows in the block that starts at s, a table of this shape: its word 0 less the tag. It is refused if it is bad or a word behind
// the rows is not 0. The rows lie in the file.
pub fn rows_in(p: Description, f: &[u32], most: usize, h: Shape, s: usize) -> Result<usize, Refusal>
    requires { (1 + most * h.stride ≤ p.wpb) × (s + p.wpb ≤ length f.now) }
    ensures count { rows_in p f.now most h s ≡ found result }
    ensures inside { IfOk result (λ n. (1 ≤ n) × (s + (1 + n * h.stride) ≤ length f.now)) }
{
    let n = within(1, most, kinds::less(words::word_at(f, s), h.tag))?;
    let used = 1 + n * h.stride;
    require(
        words::all_are(f, s + used, p.wpb - used, 0),
        Refusal::BadFile,
    )?;
    Ok(n)
}
