// The lower layer: the file description, blocks moved between file and buffer, and blocks changed where they lie. Only this crate knows where
// a block lies in a file.
#![tactic(auto)]

pub mod inside;
pub mod kinds;
mod seen;

ghost use Rattle.std.specs.Prelude.{◌≡◌, true, [], ◌∷◌, ◌+◌, ◌*◌, ◌-◌, ◌≤◌, ◌<◌, leb};
ghost use Rattle.drum.specs.Params.{D, I, FD, FI, master_size, file_size, size_if, start as start_of};
ghost use Rattle.drum.specs.Params.{every, good_params, most_sections, sized, tag_of, master_shape, index_shape, detail_shape};
ghost use Rattle.drum.specs.Blocks.{link_place, block_at, put_block, Fitting, Block};
ghost use Rattle.drum.specs.Parts.{part_of, text_part};

pub use seen::Seen;
use table::Shape;

// The parameters of a search file. Set up field by field, each step handing the description on.
#[derive(Clone, Copy)]
pub struct Description {
    pub wpb: usize,
    pub wpr: usize,
    pub k: usize,
    pub space: usize,
    pub control: usize,
    pub n: usize,
    pub form: usize,
}

impl Description {
    // The smallest and the largest WPB, K, CONTROL and N that the rules allow.
    pub const LEAST_WPB: usize = 6;

    pub const MOST_WPB: usize = 4096;

    pub const MOST_K: usize = 63;

    pub const MOST_CONTROL: usize = 16383;

    pub const MOST_N: usize = 262142;

    // The two block forms, and what the second has in word 0 of each kind of block. They stay numbers: a caller may hand in any word as a form,
    // which 020007 refuses, and a kind is added to a count in a word of the file.
    pub const FIRST: usize = 1;

    pub const SECOND: usize = 2;

    pub const INDEX: usize = 4096;

    pub const DETAIL: usize = 8192;

    pub const FREE: usize = 12288;

    pub fn new() -> Self
        ensures { result ≡ record { wpb = 0; wpr = 0; k = 0; space = 0; control = 0; n = 0; form = 1 } }
    {
        Self {
            wpb: 0,
            wpr: 0,
            k: 0,
            space: 0,
            control: 0,
            n: 0,
            form: 1,
        }
    }

    // One for each field: users set a description up by these names.
    pub fn with_wpb(mut self, x: usize) -> Self
        ensures { result
            ≡ record
            { wpb = x; wpr = self.wpr; k = self.k; space = self.space; control = self.control; n = self.n; form = self.form } }
    {
        self.wpb = x;
        self
    }

    pub fn with_wpr(mut self, x: usize) -> Self
        ensures { result
            ≡ record
            { wpb = self.wpb; wpr = x; k = self.k; space = self.space; control = self.control; n = self.n; form = self.form } }
    {
        self.wpr = x;
        self
    }

    pub fn with_k(mut self, x: usize) -> Self
        ensures { result
            ≡ record
            { wpb = self.wpb; wpr = self.wpr; k = x; space = self.space; control = self.control; n = self.n; form = self.form } }
    {
        self.k = x;
        self
    }

    pub fn with_space(mut self, x: usize) -> Self
        ensures { result
            ≡ record
            { wpb = self.wpb; wpr = self.wpr; k = self.k; space = x; control = self.control; n = self.n; form = self.form } }
    {
        self.space = x;
        self
    }

    pub fn with_control(mut self, x: usize) -> Self
        ensures { result
            ≡ record
            { wpb = self.wpb; wpr = self.wpr; k = self.k; space = self.space; control = x; n = self.n; form = self.form } }
    {
        self.control = x;
        self
    }

    pub fn with_n(mut self, x: usize) -> Self
        ensures { result
            ≡ record
            { wpb = self.wpb; wpr = self.wpr; k = self.k; space = self.space; control = self.control; n = x; form = self.form } }
    {
        self.n = x;
        self
    }

    pub fn with_form(mut self, x: usize) -> Self
        ensures { result
            ≡ record
            { wpb = self.wpb; wpr = self.wpr; k = self.k; space = self.space; control = self.control; n = self.n; form = x } }
    {
        self.form = x;
        self
    }

    // What word 0 of a block has besides its count.
    pub fn tag(self, kind: usize) -> usize
        ensures { result ≡ tag_of self kind }
    {
        if self.form == Self::SECOND {
            return kind;
        }
        0
    }

    // D: records that a detail block holds.
    pub fn d(self) -> usize
        ensures { result ≡ D self }
    {
        self.wpb
            .saturating_sub(1)
            .checked_div(self.wpr)
            .unwrap_or(0)
    }

    // I: entries that an index block holds.
    // 0 where it holds none, and no Option: what callers use may not change.
    pub fn i(self) -> usize
        ensures { result ≡ I self }
    {
        let wpb = self.wpb;
        let k = self.k;
        if wpb <= k {
            return 0;
        }
        (wpb - 1) / (k + 1)
    }

    // FD: records up to which XTEND fills a detail block.
    pub fn fd(self) -> usize
        ensures { result ≡ FD self }
    {
        self.d().saturating_sub(self.space)
    }

    // FI: entries up to which XTEND fills an index block.
    pub fn fi(self) -> usize
        ensures { result ≡ FI self }
    {
        self.i().saturating_sub(self.space)
    }

    // Where a free block has its link.
    // Beside `tag`: a place, where that is a kind.
    pub fn link_place(self) -> usize
        ensures { result ≡ link_place self }
    {
        if self.form == Self::SECOND {
            return 1;
        }
        0
    }

    // Whether the parameters keep document 01's table.
    #[tactic(auto, unfolding(crate::specs::Params::good_params, crate::specs::Params::every))]
    pub fn is_good(self) -> bool
        ensures { result ≡ good_params self }
    {
        self.wpb % 2 == 0
            && Self::LEAST_WPB <= self.wpb
            && self.wpb <= Self::MOST_WPB
            && 1 <= self.k
            && self.k <= Self::MOST_K
            && self.k <= self.wpr
            && 2 <= self.d()
            && 2 <= self.i()
            && self.space <= self.d() - 2
            && self.space <= self.i() - 2
            && 1 <= self.control
            && self.control <= Self::MOST_CONTROL
            && 2 <= self.n
            && self.n <= Self::MOST_N
            && Self::FIRST <= self.form
            && self.form <= Self::SECOND
    }

    // The words of the master, and of the file, of parameters that are good.
    fn master_words(self) -> usize
        requires { good_params self ≡ true }
        ensures { result ≡ master_size self }
    {
        let w = 3 + self.control * (self.k + 1);
        w + w % 2
    }

    fn file_words(self) -> usize
        requires { good_params self ≡ true }
        ensures { result ≡ file_size self }
    {
        self.master_words() + self.n * self.wpb
    }

    // The words of the master; 0 where the parameters are not good. It and the file's stay two functions, each of its own definition.
    // 0 and no Option, here and for the file: what callers use may not change.
    pub fn master_size(self) -> usize
        ensures { result ≡ size_if self (master_size self) }
    {
        if !self.is_good() {
            return 0;
        }
        self.master_words()
    }

    // The words of the file; 0 where the parameters are not good.
    pub fn file_size(self) -> usize
        ensures { result ≡ size_if self (file_size self) }
    {
        if !self.is_good() {
            return 0;
        }
        self.file_words()
    }

    // Where block b starts; block N + 1 would start where the file ends.
    pub fn start(self, b: usize) -> usize
        requires { (good_params self ≡ true) × (1 ≤ b) × (b ≤ self.n + 1) }
        ensures { result ≡ start_of self b }
    {
        self.master_words() + (b - 1) * self.wpb
    }

    // The tables of a file.
    pub fn master_shape(self) -> Shape
        requires { good_params self ≡ true }
        ensures { result ≡ master_shape self }
    {
        Shape {
            base: 3,
            stride: self.k + 1,
            width: self.k,
            tag: 0,
        }
    }

    pub fn index_shape(self) -> Shape
        requires { good_params self ≡ true }
        ensures { result ≡ index_shape self }
    {
        Shape {
            base: 1,
            stride: self.k + 1,
            width: self.k,
            tag: self.tag(Self::INDEX),
        }
    }

    pub fn detail_shape(self) -> Shape
        ensures { result ≡ detail_shape self }
    {
        Shape {
            base: 1,
            stride: self.wpr,
            width: self.k,
            tag: self.tag(Self::DETAIL),
        }
    }

    // Whether the parameters are good, and file and buffer have the lengths that they give.
    pub fn is_sized(self, file: usize, buffer: usize) -> bool
        ensures { result ≡ sized self file buffer }
    {
        if !self.is_good() {
            return false;
        }
        file == self.file_words() && buffer == self.wpb
    }
}

// Brings block b of the file into the buffer.
pub fn read_block(p: Description, file: &[u32], buffer: &mut [u32], b: usize)
    requires { Fitting p file.now buffer.old × Block p b }
    ensures { buffer.new ≡ block_at p file.now b }
{
    let wpb = p.wpb;
    let start = p.start(b);
    words::copy_words(buffer, 0, file, start, wpb);
}

// Writes the buffer over block b of the file.
pub fn write_block(p: Description, file: &mut [u32], buffer: &[u32], b: usize)
    requires { Fitting p file.old buffer.now × Block p b }
    ensures { file.new ≡ put_block p file.old b buffer.now }
{
    let wpb = p.wpb;
    let start = p.start(b);
    words::copy_words(file, start, buffer, 0, wpb);
}

// Lends the current text of block b, and tells where it lies: it is the buffer itself, or begins at the block's first word in the file. The four are
// not a `Seen` here: the promise names where the slices lie, which its texts leave out.
pub fn text_part<'a>(
    p: Description,
    current: usize,
    file: &'a [u32],
    buffer: &'a [u32],
    b: usize,
) -> &'a [u32]
    requires { Fitting p file.now buffer.now × Block p b }
    ensures { part_of result ≡ text_part p current file.entry buffer.entry b }
{
    if b == current {
        return buffer;
    }
    let wpb = p.wpb;
    let start = p.start(b);
    let end = start + wpb;
    &file[start..end]
}
