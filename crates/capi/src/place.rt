// Where the current text of a block lies, as one 64-bit number (the C interface): 0 nowhere, 2^32 plus a word offset in the file, 2^33 in the buffer.
ghost use Rattle.std.specs.Prelude.{◌≡◌, true, [], ◌+◌, ◌≤◌};
ghost use Rattle.drum.specs.Params.{good_params, start};
ghost use Rattle.searchfile.specs.Promise.{given};
ghost use Rattle.capi.specs.View.{in_file, place_of};

use drum::Description;
use searchfile::Session;

const IN_FILE: u64 = 1 << 32;

const IN_BUFFER: u64 = 1 << 33;

// The number for a block that lies in the file.
fn in_file(p: Description, b: usize) -> u64
    requires { (good_params p ≡ true) × (1 ≤ b) × (b ≤ p.n) }
    ensures { result ≡ in_file + start p b }
{
    IN_FILE + p.start(b) as u64
}

// The number for block b as the session sees it: 0 where VIEW lends an empty part.
pub fn place_of(s: Session, file: &[u32], buffer: &[u32], b: usize) -> u64
    ensures { result ≡ place_of (given s file.now buffer.now []) b }
{
    if !s.shows(file.len(), buffer.len(), b) {
        0
    } else if b == s.current {
        IN_BUFFER
    } else {
        in_file(s.desc, b)
    }
}
