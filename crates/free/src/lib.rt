// New blocks: the chain's head first, then the lowest never used, each tested against the other blocks of the call. The number that tells
// whether any is left. And the file made ready for them.
#![tactic(auto)]

mod ready;

ghost use Rattle.std.specs.Prelude.{◌≡◌, true};
ghost use Rattle.numbers.specs.Refused.{checked};
ghost use Rattle.drum.specs.Params.{good_params};
ghost use Rattle.drum.specs.Sight.{texts};
ghost use Rattle.rules.specs.Free.{none_left, granted, take_one, take_two, stored_number, is_new, is_short};

use drum::{Description, Seen, kinds};
use numbers::{DONE, NONE_FREE, Refusal, require, up_to, within};
pub use ready::prepare;
use rules::{Pair, Path, Taken};

// Whether no block is free, with these words 1 and 2 of the master.
#[tactic(auto, unfolding(rules::specs::Free::none_left))]
fn none_left(p: Description, head: usize, lowest: u32) -> Result<bool, Refusal>
    requires { good_params p ≡ true }
    ensures { checked result ≡ none_left p head lowest }
{
    up_to(p.n, head)?;
    if head != 0 {
        return Ok(false);
    }
    let low = within(1, p.n + 1, lowest as usize)?;
    Ok(p.n < low)
}

// A new block, with these words 1 and 2 of the master: the chain's head, else the lowest never used.
fn take_block(v: Seen, head: usize, lowest: u32) -> Result<Taken, Refusal>
    ensures { checked result ≡ granted (texts v.entry) head lowest }
{
    if none_left(v.desc, head, lowest)? {
        // block 0 for none and no Option: the definitions' type says it so, and they may not change
        return Ok(Taken {
            block: 0,
            head,
            lowest,
        });
    }
    if head == 0 {
        return Ok(Taken {
            block: lowest as usize,
            head: 0,
            lowest: lowest + 1,
        });
    }
    let t = v.text_of(head);
    require(kinds::is_free(v.desc, t), Refusal::BadFile)?;
    let link = up_to(v.desc.n, kinds::link_in(v.desc, t))?;
    Ok(Taken {
        block: head,
        head: link,
        lowest,
    })
}

// Whether block b is no other block of the call's transfers.
fn is_new(current: usize, flag: bool, w: Path, b: usize) -> bool
    ensures { result ≡ is_new current flag w b }
{
    b != w.index && b != w.detail && !(flag && b == current)
}

// One new block for a call with the path w, tested.
pub fn take_one(v: Seen, flag: bool, w: Path) -> Result<Taken, Refusal>
    ensures { checked result ≡ take_one (texts v.entry) flag w }
{
    let head = words::word_at(v.file, 1);
    let d = take_block(v, head, v.file[2])?;
    if d.block != 0 {
        require(is_new(v.current, flag, w, d.block), Refusal::BadFile)?;
    }
    Ok(d)
}

// Whether one of two new blocks is lacking, or a section.
fn is_short(v: Seen, d: usize, x: usize) -> bool
    ensures { result ≡ is_short (texts v.entry) d x }
{
    d == 0 || x == 0 || v.desc.control <= words::word_at(v.file, 0)
}

// Two new blocks for a call with the path w, the detail block first, and a section: tested, and not the same.
pub fn take_two(v: Seen, flag: bool, w: Path) -> Result<Pair, Refusal>
    ensures { checked result ≡ take_two (texts v.entry) flag w }
{
    let head = words::word_at(v.file, 1);
    let d = take_block(v, head, v.file[2])?;
    let x = take_block(v, d.head, d.lowest)?;
    if is_short(v, d.block, x.block) {
        return Ok(Pair {
            detail: 0,
            index: x,
        });
    }
    require(is_new(v.current, flag, w, d.block), Refusal::BadFile)?;
    require(is_new(v.current, flag, w, x.block), Refusal::BadFile)?;
    require(x.block != d.block, Refusal::BadFile)?;
    Ok(Pair {
        detail: d.block,
        index: x,
    })
}

// The number once a record is stored in a block that then holds n, with these words 1 and 2 of the master.
pub fn stored(p: Description, n: usize, head: usize, lowest: u32) -> Result<u32, Refusal>
    requires { good_params p ≡ true }
    ensures { checked result ≡ stored_number p n head lowest }
{
    if n != p.d() {
        return Ok(DONE);
    }
    if none_left(p, head, lowest)? {
        return Ok(NONE_FREE);
    }
    Ok(DONE)
}
