// The copying call: a file into a second one with another CONTROL. Nothing is written before the sizes, the session and the file are found right.
#![tactic(auto)]

ghost use Rattle.std.specs.Prelude.{◌≡◌, true, ◌&&◌, ◌++◌, ◌-◌, ◌≤◌, eqb, length};
ghost use Rattle.words.specs.Words.{part, put, zeros};
ghost use Rattle.numbers.specs.Refused.{number};
ghost use Rattle.drum.specs.Params.{good_params, master_size, file_size};
ghost use Rattle.drum.specs.Blocks.{sections};
ghost use Rattle.layout.specs.Inspected.{Fit};
ghost use Rattle.layout.specs.Copied.{under_control, entries_end, copied};
ghost use Rattle.rules.specs.Copy.{copy_left, copy_sizes, copy};
ghost use Rattle.copy.specs.Fits.{CopyFits};

use drum::Description;
use numbers::{Refusal, require};

// Whether the parameters are good and a file of that length is theirs.
fn is_file(p: Description, file: usize) -> bool
    ensures { result ≡ (good_params p && eqb file (file_size p)) }
{
    p.is_good() && file == p.file_size()
}

// Whether parameters, lengths and the new CONTROL are right. Word 0 of the file is taken as it stands: nobody has inspected the file yet.
fn is_sized(p: Description, control: usize, file: &[u32], second: usize, marks: usize) -> bool
    ensures { result ≡ copy_sizes p control file.now second marks }
{
    let q = p.with_control(control);
    let are_files = is_file(p, file.len()) && is_file(q, second);
    are_files && marks == p.n && words::word_at(file, 0) <= control
}

// The words of the master that are in use: its three numbers and its entries.
fn entries_end(p: Description, file: &[u32]) -> usize
    requires fit { Fit p file.now }
    requires file_bound { sections file.now ≤ p.control }
    ensures { result ≡ entries_end p file.now }
{
    let sections = words::word_at(file, 0);
    3 + sections * (p.k + 1)
}

// The words of the master, of good parameters.
// Kept for its promise: of good parameters the size is the formula, with no case for others.
fn master_of(p: Description) -> usize
    requires { good_params p ≡ true }
    ensures { result ≡ master_size p }
{
    p.master_size()
}

// The words of the master with the new CONTROL.
// Kept for its promise, likewise.
fn new_master(p: Description, control: usize) -> usize
    requires { good_params (under_control control p) ≡ true }
    ensures { result ≡ master_size (under_control control p) }
{
    master_of(p.with_control(control))
}

// Writes a master of `new` words: the `used` words of the file's, and zeros behind them.
fn lay_master(second: &mut [u32], file: &[u32], used: usize, new: usize)
    requires { (used ≤ new) × (new ≤ length second.old) × (used ≤ length file.now) }
    ensures { second.new ≡ put second.old 0 (part 0 used file.now ++ zeros (new - used)) }
{
    words::copy_words(second, 0, file, 0, used);
    words::zero_words(second, used, new - used);
}

// Writes the copy, every word of the second file: the new master, and the blocks, which lie behind it as they lay behind the old one.
fn lay_copy(p: Description, control: usize, file: &[u32], second: &mut [u32])
    requires { CopyFits p control file.now second.old }
    ensures { second.new ≡ copied control p file.now }
{
    let used = entries_end(p, file);
    let old = master_of(p);
    let new = new_master(p, control);
    lay_master(second, file, used, new);
    words::copy_words(second, new, file, old, file.len() - old);
}

// Copies the file of a session with these parameters, open or not, into the second one with the new CONTROL.
pub fn copy_file(
    p: Description,
    opened: bool,
    control: usize,
    file: &[u32],
    second: &mut [u32],
    marks: &mut [u8],
) -> Result<(), Refusal>
    ensures { copy_left (number result) second.new marks.new ≡ copy p opened control file.now second.old marks.old }
{
    require(
        is_sized(p, control, file, second.len(), marks.len()),
        Refusal::WrongSize,
    )?;
    require(!opened, Refusal::AlreadyOpen)?;
    require(layout::inspect(p, file, marks), Refusal::BadFile)?;
    lay_copy(p, control, file, second);
    Ok(())
}
