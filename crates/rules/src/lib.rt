// The types that the definitions in specs/ and the code of the calls share: ways to blocks, what a lookup comes to, new blocks, and
// what each call that changes the file will do.

#![tactic(auto)]

ghost use Rattle.std.specs.Prelude.{◌≡◌, false};
ghost use Rattle.numbers.specs.Refused.{number_of};

use drum::Description;
use numbers::Refusal;

// Which entry of a table is wanted: the first, the last, the one at a place, or the first whose bound is not below the key.
#[derive(Clone, Copy)]
pub enum Which {
    First,
    Last,
    Place(usize),
    Covering,
}

// An entry: its place in its table, and the block that it names.
#[derive(Clone, Copy)]
pub struct Entry {
    pub place: usize,
    pub block: usize,
}

// The way to a detail block: place in the master, index block, place in the index block, detail block.
#[derive(Clone, Copy)]
pub struct Path {
    pub section: usize,
    pub index: usize,
    pub entry: usize,
    pub detail: usize,
}

// How a block comes to the buffer: it is there, or it is brought along a path.
#[derive(Clone, Copy)]
pub enum Way {
    Here,
    By(Path),
}

// What a lookup comes to: the record's place in the block, or the block that would hold it.
#[derive(Clone, Copy)]
pub enum Look {
    Found(Way, usize),
    Missing(Path),
}

// What ADV comes to: the record's place in a block, or in the next block (the second path) when the first path's has nothing greater.
#[derive(Clone, Copy)]
pub enum Step {
    At(Way, usize),
    Beyond(Path, Path, usize),
}

// A new block (0: none is free, as specs/Free has it), and words 1 and 2 of the master then. Word 2 may be any word while the chain is not empty.
#[derive(Clone, Copy)]
pub struct Taken {
    pub block: usize,
    pub head: usize,
    pub lowest: u32,
}

// Two new blocks, the detail block before the index block, whose words 1 and 2 are the master's then (detail 0: too few are free, or no
// section is left; 0 as the definitions of specs/ have it).
#[derive(Clone, Copy)]
pub struct Pair {
    pub detail: usize,
    pub index: Taken,
}

// What NSERT will do, with its number: stop after the lookup; store at a place of the block; split the block; split the index block too.
#[derive(Clone, Copy)]
pub enum Insert {
    Stop(Way, u32),
    Room(Path, usize, u32),
    Split(Path, usize, Taken, u32),
    Both(Path, usize, usize, Taken, u32),
}

// What DLETE will do: stop after the lookup; take the record out; empty the block, whose link becomes the given head of the chain; empty
// its index block too.
#[derive(Clone, Copy)]
pub enum Delete {
    Stop(Path),
    Remove(Way, usize),
    Empty(Way, Path, usize),
    Both(Way, Path, usize),
}

// What XTEND will do, with its number: stop, or store in the last block (the index block that was read for it, or 0); start a new block;
// start a new index block and section too; or, from a last block with only the end record, do what NSERT does on another path, or stop there.
// (0 as the definitions of specs/ have it.)
#[derive(Clone, Copy)]
pub enum Extend {
    Stop(Way, usize, u32),
    Room(Way, usize, u32),
    New(Way, Path, Taken, u32),
    Both(Way, Path, usize, Taken, u32),
    Before(Way, Path, Insert),
}

// What a call works with beside the lent words: the description, the current block (0 for none, as the definitions of specs/ have it) and the flag.
#[derive(Clone, Copy)]
pub struct Held {
    pub desc: Description,
    pub current: usize,
    pub flag: bool,
}

// What a call has done: its number and count, the current block and flag it leaves, and whether position is the workspace's key now.
#[derive(Clone, Copy)]
pub struct Done {
    pub number: u32,
    pub transfers: usize,
    pub current: usize,
    pub flag: bool,
    pub keyed: bool,
}

// A call as its kind; `at` is where its key or record begins in the array of words kept beside it.
#[derive(Clone, Copy)]
pub enum Call {
    Create,
    Open,
    Close,
    Seek { at: usize },
    Adv,
    Nsert { at: usize },
    Dlete { at: usize },
    Updat { at: usize },
    Xtend { at: usize },
}

impl Done {
    // A refusal: "all unchanged", 0 transfers.
    pub fn refused(number: u32, current: usize, flag: bool) -> Self
        ensures { result ≡ record { number = number; transfers = 0; current = current; flag = flag; keyed = false } }
    {
        Self {
            number,
            transfers: 0,
            current,
            flag,
            keyed: false,
        }
    }
}

impl Held {
    // The same, of what is held.
    pub fn refused(self, refusal: Refusal) -> Done
        ensures { result
            ≡ record
            { number = number_of refusal; transfers = 0; current = self.current; flag = self.flag; keyed = false } }
    {
        Done::refused(u32::from(refusal), self.current, self.flag)
    }
}
