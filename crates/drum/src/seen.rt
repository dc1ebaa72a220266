// What a plan looks at: the file and the buffer as they are lent, with the description and the number of the buffered block.
ghost use Rattle.std.specs.Prelude.{◌≡◌};
ghost use Rattle.drum.specs.Blocks.{Fitting, Block};

use super::{Description, text_part};

// Words that are not the description's cannot be put into one: whoever builds it shows that they fit.
#[derive(Clone, Copy)]
pub struct Seen<'a> {
    pub desc: Description,
    pub current: usize,
    pub file: &'a [u32],
    pub buffer: &'a [u32],
    pub ghost fits: { Fitting desc file.now buffer.now },
}

impl<'a> Seen<'a> {
    ghost use Rattle.std.specs.Prelude.{◌≡◌};
    ghost use Rattle.drum.specs.Blocks.{Block, text_of};
    ghost use Rattle.drum.specs.Sight.{texts};

    // The current text of block b.
    pub fn text_of(self, b: usize) -> &'a [u32]
        requires { Block self.desc b }
        ensures { result.now ≡ text_of (texts self.entry) b }
    {
        text_part(self.desc, self.current, self.file, self.buffer, b)
    }
}
