// What every face of the routine shares: what is refused before the steps of a call that is lent a workspace.
#![tactic(auto)]

ghost use Rattle.std.specs.Prelude.{◌≡◌, true, ◌≤◌, length};
ghost use Rattle.words.specs.Words.{part, put};
ghost use Rattle.numbers.specs.Refused.{tested};
ghost use Rattle.drum.specs.Params.{good_params};
ghost use Rattle.face.specs.Checks.{plain_checks, keyed_checks};

use drum::Description;
use numbers::{Refusal, require};

// What a call answers: its number (crate `numbers`), the transfers it made, and the session to go on with.
#[derive(Clone, Copy)]
pub struct Answer<S> {
    pub number: u32,
    pub transfers: usize,
    pub session: S,
}

// What refuses a call that is lent a workspace.
pub fn refused_plain(
    p: Description,
    opened: bool,
    file: usize,
    buffer: usize,
    work: usize,
) -> Result<(), Refusal>
    ensures { tested result ≡ plain_checks p opened file buffer work }
{
    require(p.is_sized(file, buffer), Refusal::WrongSize)?;
    require(work == p.wpr, Refusal::WrongSize)?;
    require(opened, Refusal::IsClosed)
}

// What refuses a keyed call that reads so many words of its workspace.
pub fn refused_key(
    p: Description,
    opened: bool,
    file: usize,
    buffer: usize,
    work: &[u32],
    reads: usize,
) -> Result<(), Refusal>
    requires { good_params p ≡ true → reads ≤ p.wpr }
    ensures { tested result ≡ keyed_checks p opened file buffer work.now reads }
{
    refused_plain(p, opened, file, buffer, work.len())?;
    let is_key = words::all_words(work, 0, reads) && !words::all_are(work, 0, p.k, 262143);
    require(is_key, Refusal::WrongKey)
}

// Writes the key of k words that stands first in the workspace over the first words of a position.
pub fn put_key(position: &mut [u32; 63], work: &[u32], k: usize)
    requires { (k ≤ 63) × (k ≤ length work.now) }
    ensures { position.new ≡ put position.old 0 (part 0 k work.now) }
{
    words::copy_words(position, 0, work, 0, k);
}
