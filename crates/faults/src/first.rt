// What is wrong with a first line: its words, a parameter out of range, or the size of the file that it asks for.
ghost use Rattle.std.specs.Prelude.{◌≡◌, ◌-◌};
ghost use Rattle.faults.specs.First.{within as within_of, wpb_good, half as half_of, most_key};
ghost use Rattle.faults.specs.First.{most_space, out_fault, ranged as ranged_of, range_fault, words_fault, first_fault};

use super::watch::Watch;
use super::{Fault, Parameter};
use drum::Description;

#[tactic(auto, unfolding(crate::specs::First::within))]
fn is_within(least: usize, value: usize, most: usize) -> bool
    ensures { result ≡ within_of least value most }
{
    (least..=most).contains(&value)
}

#[tactic(auto, unfolding(crate::specs::First::wpb_good))]
fn is_wpb(wpb: usize) -> bool
    ensures { result ≡ wpb_good wpb }
{
    wpb % 2 == 0 && is_within(6, wpb, 4096)
}

// The most words of a record, with two to a block.
#[tactic(auto, unfolding(crate::specs::First::half))]
fn half(p: Description) -> usize
    ensures { result ≡ half_of p }
{
    p.wpb.saturating_sub(1) / 2
}

// The most words of a key, with two entries to a block.
fn most_key(p: Description) -> usize
    ensures { result ≡ most_key p }
{
    half(p).saturating_sub(1).min(63)
}

// The most that SPACE may be.
fn most_space(p: Description) -> usize
    ensures { result ≡ most_space p }
{
    p.d().min(p.i()).saturating_sub(2)
}

// What, value, least and most stay four, as in the definitions of specs/First and in the fields of Fault::OutOfRange.
#[tactic(auto, unfolding(crate::specs::First::out_fault))]
fn out_fault(what: Parameter, value: usize, least: usize, most: usize) -> Fault
    ensures { result ≡ out_fault what value least most }
{
    Fault::OutOfRange {
        what,
        value,
        least,
        most,
    }
}

// That the value is out of the range, else what is wrong besides.
fn ranged(what: Parameter, value: usize, least: usize, most: usize, more: Fault) -> Fault
    ensures { result ≡ ranged_of what value least most more }
{
    if is_within(least, value, most) {
        return more;
    }
    out_fault(what, value, least, most)
}

// The first parameter that is out of its range, where one is: the last is looked at first, and each before it comes before it.
fn range_fault(p: Description) -> Fault
    ensures { result ≡ range_fault p }
{
    if !is_wpb(p.wpb) {
        return out_fault(Parameter::Wpb, p.wpb, 6, 4096);
    }
    let blocks = out_fault(Parameter::N, p.n, 2, 262142);
    let control = ranged(Parameter::Control, p.control, 1, 16383, blocks);
    let space = ranged(Parameter::Space, p.space, 0, most_space(p), control);
    let record = ranged(Parameter::Wpr, p.wpr, p.k, half(p), space);
    ranged(Parameter::K, p.k, 1, most_key(p), record)
}

// A first line that is not of six numbers.
fn words_fault(w: Watch) -> Fault
    ensures { result ≡ words_fault w }
{
    if let Some(word) = w.odd {
        return Fault::NoNumber { word };
    }
    if w.words != 6 {
        return Fault::NotSix { given: w.words };
    }
    Fault::AboveTop
}

// A first line with which no call is played.
pub fn first_fault(w: Watch, given: Option<Description>) -> Fault
    ensures { result ≡ first_fault w given }
{
    match given {
        None => words_fault(w),
        Some(p) => {
            if p.is_good() {
                return Fault::TooLarge {
                    size: p.file_size(),
                };
            }
            range_fault(p)
        }
    }
}
