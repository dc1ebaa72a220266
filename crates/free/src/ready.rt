// The file and the buffer made ready for new blocks.
// What a call holds, the file and the buffer stay three parameters (why: crate acts).
ghost use Rattle.std.specs.Prelude.{◌≡◌, length};
ghost use Rattle.drum.specs.Blocks.{Fitting};
ghost use Rattle.acts.specs.Reach.{seen_by};
ghost use Rattle.rules.specs.Lookup.{reached, text_at};
ghost use Rattle.free.specs.Readied.{ReadyFits, ready_file};

use rules::{Held, Path, Taken, Way};

// Before new blocks are written: the way followed, the index block's current text in the file, the detail block's in the buffer, and words
// 1 and 2 of the master set. Counts the transfers of the way.
pub fn prepare(at: Held, file: &mut [u32], buffer: &mut [u32], way: Way, w: Path, d: Taken) -> usize
    requires { Fitting at.desc file.old buffer.old
        × ReadyFits (seen_by at file.old buffer.old) at.flag way w d }
    ensures { (result ≡ length (reached (seen_by at file.old buffer.old) at.flag way).moves)
        × (file.new ≡ ready_file (seen_by at file.old buffer.old) at.flag way w d)
        × (buffer.new ≡ text_at (seen_by at file.old buffer.old) way) }
{
    let moved = acts::follow(at, file, buffer, way);
    acts::stage(at, file, buffer, w.index);
    acts::load(at, file, buffer, w.detail);
    acts::set_free(file, d.head, d.lowest);
    moved
}
