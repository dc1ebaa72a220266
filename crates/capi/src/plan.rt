// A plan as eight words: how many calls of each kind, and how many records.
ghost use Rattle.std.specs.Prelude.{◌≡◌, true, false, length, IfSome, IfNone};
ghost use Rattle.capi.specs.Words.{parameters_in};
ghost use Rattle.capi.specs.Space.{is_planner};
ghost use Rattle.capi.specs.Plan.{plan_in};

use super::session::{is_session, parameters_in};
use demands::Plan;
use drum::Description;

pub const PLAN_WORDS: usize = 8;

// Says that there is no plan, and no Option (the C interface): more than any plan can cost.
pub const NO_PLAN: u64 = u64::MAX;

// The parameters to plan by: those of a session's words, where they are in range.
// Within its callers, so that seven numbers need not pass by memory.
#[inline(always)]
pub fn planner_in(words: &[u32]) -> Option<Description>
    ensures yes { IfSome result (λ p. is_planner words.now ≡ true) }
    ensures same { IfSome result (λ p. p ≡ parameters_in words.now) }
    ensures no { IfNone result (is_planner words.now ≡ false) }
{
    if !is_session(words) {
        return None;
    }
    // The parameters alone: a planner needs no position, which would be 63 words copied.
    let p = parameters_in(words);
    if p.is_good() { Some(p) } else { None }
}

// The plan that eight words are.
pub fn plan_in(words: &[u32]) -> Plan
    requires { length words.now ≡ 8 }
    ensures { result ≡ plan_in words.now }
{
    Plan {
        seeks: words[0],
        updats: words[1],
        nserts: words[2],
        advs: words[3],
        dletes: words[4],
        xtends: words[5],
        closes: words[6],
        records: words[7],
    }
}
