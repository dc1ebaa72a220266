// The turning call: a file from one block form to the other, where it lies. Nothing is written before the sizes, the session and the file are found right.
// The marks say what each block is: while the file is turned an index block's is 3.
#![tactic(auto)]

mod blocks;
mod marking;

ghost use Rattle.std.specs.Prelude.{◌≡◌, true, length};
ghost use Rattle.numbers.specs.Refused.{number};
ghost use Rattle.drum.specs.Params.{good_params};
ghost use Rattle.layout.specs.Inspect.{layout_marks};
ghost use Rattle.layout.specs.Inspected.{Fit};
ghost use Rattle.layout.specs.Turned.{other_form, turned};
ghost use Rattle.rules.specs.Turning.{turn_left, turn_sizes, turn_layout, turning};
ghost use Rattle.turn.specs.Fits.{TurnFits, described};

use blocks::turn_blocks;
use drum::Description;
use marking::{mark_indexes, restore};
use numbers::{Refusal, require};

// The parameters of the file in the other form.
fn other(p: Description) -> Description
    requires { good_params p ≡ true }
    ensures { result ≡ other_form p }
{
    p.with_form(Description::FIRST + Description::SECOND - p.form)
}

// Whether parameters and lengths are right.
fn is_sized(p: Description, file: usize, marks: usize) -> bool
    ensures { result ≡ turn_sizes p file marks }
{
    p.is_good() && file == p.file_size() && marks == p.n
}

// Turns each block that is in use or chained; the marks are OPEN's again when all is done.
fn turn_file(p: Description, file: &mut [u32], marks: &mut [u8])
    requires { TurnFits p file.old marks.old }
    ensures { (file.new ≡ turned p marks.old file.old) × (marks.new ≡ marks.old) }
{
    mark_indexes(p, file, marks);
    turn_blocks(p, file, marks);
    restore(marks);
}

// Turns a file of the right length if it is as under Layout.
fn turn_closed(p: Description, file: &mut [u32], marks: &mut [u8]) -> Result<Description, Refusal>
    requires { Fit p file.old × (length marks.old ≡ p.n) }
    ensures { turn_left (number result) (described p result) file.new marks.new ≡ turn_layout p file.old (layout_marks p file.old) }
{
    require(layout::inspect(p, file, marks), Refusal::BadFile)?;
    turn_file(p, file, marks);
    Ok(other(p))
}

// Turns the file of a session with these parameters, open or not; gives the parameters that the session then has.
pub fn turn(
    p: Description,
    opened: bool,
    file: &mut [u32],
    marks: &mut [u8],
) -> Result<Description, Refusal>
    ensures { turn_left (number result) (described p result) file.new marks.new ≡ turning p opened file.old marks.old }
{
    require(is_sized(p, file.len(), marks.len()), Refusal::WrongSize)?;
    require(!opened, Refusal::AlreadyOpen)?;
    turn_closed(p, file, marks)
}
