// The marks: one for each block, 0 before the walk comes to it.
// u8 and no enum: the marks are the caller's bytes (the C interface).
ghost use Rattle.std.specs.Prelude.{◌≡◌, length};
ghost use Rattle.words.specs.Words.{zeros, all_are, none_is};
ghost use Rattle.layout.specs.Inspect.{marked};
ghost use Rattle.layout.specs.Inspected.{stepped};

use numbers::{Refusal, require, within};

// Marks block b with m, if it is one of the file's and had no mark.
pub fn mark(m: u8, b: usize, marks: &mut [u8]) -> Result<(), Refusal>
    ensures { marked m b marks.old ≡ stepped result marks.new }
{
    within(1, marks.len(), b)?;
    require(marks[b - 1] == 0, Refusal::BadFile)?;
    marks[b - 1] = m;
    Ok(())
}

// Whether these marks are all set.
pub fn all_set(marks: &[u8]) -> bool
    ensures { result ≡ none_is 0 marks.now }
{
    marks.iter().all(|m| *m != 0)
}

// Whether these marks are all 0.
pub fn none_set(marks: &[u8]) -> bool
    ensures { result ≡ all_are 0 marks.now }
{
    marks.iter().all(|m| *m == 0)
}

// Puts 0 in every mark.
pub fn clear(marks: &mut [u8])
    ensures { marks.new ≡ zeros (length marks.old) }
{
    marks.fill(0);
}
