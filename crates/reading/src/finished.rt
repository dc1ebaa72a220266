// Whether a file that is as under Layout is finished. Its numbers were found right, so none is tested here again.
ghost use Rattle.std.specs.Prelude.{◌≡◌, ◌+◌, ◌*◌, ◌≤◌, length};
ghost use Rattle.drum.specs.Params.{I};
ghost use Rattle.drum.specs.Blocks.{Block};
ghost use Rattle.layout.specs.Inspect.{named};
ghost use Rattle.layout.specs.Inspected.{Fit, flagged, left_marks};
ghost use Rattle.reading.specs.Finished.{holds_fd, entry_ok, in_order, finished as is_finished, finished_marks};
ghost use Rattle.reading.specs.Fits.{NamesBlocks, Inspected};

use drum::{Description, kinds};

// Whether block b is the last one, with none behind it, or holds FD records.
fn holds_fd(p: Description, file: &[u32], b: usize, behind: usize) -> bool
    requires { Fit p file.now × Block p b }
    ensures { result ≡ holds_fd p file.now b behind }
{
    behind == 0 || kinds::records_in(p, layout::block_of(p, file, b)) == p.fd()
}

// Whether the entry at place e, behind which so many come, names block b, which is then looked at.
fn entry_ok(p: Description, file: &[u32], e: usize, b: usize, behind: usize) -> bool
    requires { Fit p file.now × (e + (p.k + 1) ≤ length file.now) × Block p (named p file.now e) }
    ensures { result ≡ entry_ok p file.now e b behind }
{
    words::word_at(file, e + p.k) == b && holds_fd(p, file, b, behind)
}

// Whether the n entries from place e on name block 2, the next one, and so on, each with FD records but the last.
fn in_order(p: Description, file: &[u32], e: usize, n: usize) -> bool
    requires { Fit p file.now × (n ≤ I p) × (e + n * (p.k + 1) ≤ length file.now) × NamesBlocks p file.now e n }
    ensures { result ≡ in_order p file.now e 2 n }
{
    for i in 0..n {
        if !entry_ok(p, file, e + i * (p.k + 1), 2 + i, n - (i + 1)) {
            return false;
        }
    }
    true
}

// Whether a file that was inspected is finished.
fn is_finished(p: Description, file: &[u32]) -> bool
    requires { Inspected p file.now }
    ensures { result ≡ is_finished p file.now }
{
    words::word_at(file, 1) == 0
        && words::word_at(file, 3 + p.k) == 1
        && in_order(
            p,
            file,
            p.start(1) + 1,
            kinds::entries_in(p, layout::block_of(p, file, 1)),
        )
}

// Whether the file is as under Layout and finished; the marks if so, and all 0 if not. A bool, as layout's own: what it refuses has one number.
pub fn inspect(p: Description, file: &[u32], marks: &mut [u8]) -> bool
    requires { Fit p file.now × (length marks.old ≡ p.n) }
    ensures { (finished_marks p file.now ≡ flagged result marks.new) × (marks.new ≡ left_marks p.n (finished_marks p file.now)) }
{
    if !layout::inspect(p, file, marks) {
        return false;
    }
    if is_finished(p, file) {
        return true;
    }
    layout::clear(marks);
    false
}
