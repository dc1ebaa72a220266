// The walk's steps: a detail block, an index block with its detail blocks, the sections, the chain. Each marks the blocks it comes to; a
// block that was marked before is refused before its words are looked at.
ghost use Rattle.std.specs.Prelude.{◌≡◌, ◌+◌, ◌*◌, ◌≤◌, ◌<◌, ℕ, List, length};
ghost use Rattle.drum.specs.Params.{start};
ghost use Rattle.drum.specs.Blocks.{block_at};
ghost use Rattle.numbers.specs.Checked.{Checked};
ghost use Rattle.layout.specs.Inspect.{through, detail_held, index_held, chain_held};
ghost use Rattle.layout.specs.Inspected.{stepped, Fit, Lies};

use super::marking::mark;
use super::rows::{last_row, records_ok, rows_in};
use drum::{Description, kinds};
use numbers::{Refusal, require};

// Where block b begins in the file, in which it lies whole.
fn start_of(p: Description, f: &[u32], b: usize) -> usize
    requires { Fit p f.now × (1 ≤ b) × (b ≤ p.n) }
    ensures { (result ≡ start p b) × (result + p.wpb ≤ length f.now) }
{
    p.start(b)
}

// The words of block b.
pub fn block_of<'a>(p: Description, f: &'a [u32], b: usize) -> &'a [u32]
    requires { Fit p f.now × (1 ≤ b) × (b ≤ p.n) }
    ensures { (result.now ≡ block_at p f.now b) × (length result.now ≡ p.wpb) }
{
    let s = start_of(p, f, b);
    let end = s + p.wpb;
    &f[s..end]
}

// The detail block under the entry at place e.
pub fn detail_held(
    p: Description,
    f: &[u32],
    low: usize,
    e: usize,
    marks: &mut [u8],
) -> Result<(), Refusal>
    requires fit { Fit p f.now }
    requires marks_len { (length marks.old ≡ p.n) × (low + p.k ≤ length f.now) × (e + (p.k + 1) ≤ length f.now) }
    ensures { detail_held p f.now low e marks.old ≡ stepped result marks.new }
{
    let b = words::word_at(f, e + p.k);
    mark(1, b, marks)?;
    let s = start_of(p, f, b);
    let n = rows_in(p, f, p.d(), p.detail_shape(), s)?;
    require(records_ok(p, f, low, e, s + 1, n), Refusal::BadFile)
}

// The n entries from place e on, one by one: each step is given the place of the entry before, or `low`. Whatever the steps stand for (`walk`), the
// whole stands for `through walk`.
fn through<F: Fn(usize, usize, &mut [u8]) -> Result<(), Refusal>>(
    step: F,
    stride: usize,
    low: usize,
    e: usize,
    n: usize,
    marks: &mut [u8],
) -> Result<(), Refusal>
    requires fits { e + n * stride < 1099511627776 }
    requires callable { (before at : ℕ) (m : _)
        → (length m.now ≡ length marks.old)
        → (at + stride ≤ e + n * stride)
        → Lies low e stride n before
        → F.pre step before at m }
    ensures { (walk : ℕ → ℕ → List ℕ → Checked (List ℕ))
        → ((before at : ℕ) (m : _) (r : _) (after : _) → F.post step before at m r after → walk before at m.now ≡ stepped r after.now)
        → through walk stride low e n marks.old ≡ stepped result marks.new }
{
    let mut before = low;
    for i in 0..n {
        let at = e + i * stride;
        step(before, at, marks)?;
        before = at;
    }
    Ok(())
}

// The index block under the master's entry at place e, with its entries.
pub fn index_held(
    p: Description,
    f: &[u32],
    low: usize,
    e: usize,
    marks: &mut [u8],
) -> Result<(), Refusal>
    requires fit { Fit p f.now }
    requires marks_len { (length marks.old ≡ p.n) × (low + p.k ≤ length f.now) × (e + (p.k + 1) ≤ length f.now) }
    ensures { index_held p f.now low e marks.old ≡ stepped result marks.new }
{
    let k = p.k;
    let b = words::word_at(f, e + k);
    mark(1, b, marks)?;
    let s = start_of(p, f, b);
    let n = rows_in(p, f, p.i(), p.index_shape(), s)?;
    let last = last_row(f, s + 1, k + 1, n);
    require(words::same_key(f, last, f, e, k), Refusal::BadFile)?;
    through(
        |before, at, ms| detail_held(p, f, before, at, ms),
        k + 1,
        low,
        s + 1,
        n,
        marks,
    )
}

// The n sections, each with its index block.
pub fn sections_held(p: Description, f: &[u32], n: usize, marks: &mut [u8]) -> Result<(), Refusal>
    requires fit { Fit p f.now }
    requires marks_len { (length marks.old ≡ p.n) × (3 + n * (p.k + 1) ≤ length f.now) }
    ensures { through (index_held p f.now) (p.k + 1) 0 3 n marks.old ≡ stepped result marks.new }
{
    through(
        |before, at, ms| index_held(p, f, before, at, ms),
        p.k + 1,
        0,
        3,
        n,
        marks,
    )
}

// The chain from its head on, which has at most N blocks.
pub fn chain_held(p: Description, f: &[u32], head: usize, marks: &mut [u8]) -> Result<(), Refusal>
    requires fit { Fit p f.now }
    requires marks_len { length marks.old ≡ p.n }
    ensures { chain_held p f.now p.n head marks.old ≡ stepped result marks.new }
{
    let behind = p.link_place() + 1;
    let mut b = head;
    for _i in 0..p.n {
        if b == 0 {
            return Ok(());
        }
        mark(2, b, marks)?;
        let t = block_of(p, f, b);
        require(kinds::is_free(p, t), Refusal::BadFile)?;
        require(
            words::all_are(t, behind, t.len() - behind, 0),
            Refusal::BadFile,
        )?;
        b = kinds::link_in(p, t);
    }
    require(b == 0, Refusal::BadFile)
}
