// The space of so many names for programs in other languages: what a planner asks before a file is made.
// Why the equal bodies are not one function over a closure: lib.rt.
ghost use Rattle.std.specs.Prelude.{◌≡◌};
ghost use Rattle.demands.specs.Space.{most_sections, most_blocks};
ghost use Rattle.capi.specs.Space.{space_in};

use super::plan::{NO_PLAN, planner_in};

// The most blocks that so many names take, put in by NSERT in any order; 2^64 - 1 where there is no session.
pub fn nasturakh_most_blocks(session: &[u32], names: u32) -> u64
    ensures { result ≡ space_in most_blocks session.now names }
{
    let Some(p) = planner_in(session) else {
        return NO_PLAN;
    };
    demands::most_blocks(p, names)
}

// The most sections that they take; 2^64 - 1 where there is no session.
pub fn nasturakh_most_sections(session: &[u32], names: u32) -> u64
    ensures { result ≡ space_in most_sections session.now names }
{
    let Some(p) = planner_in(session) else {
        return NO_PLAN;
    };
    demands::most_sections(p, names)
}
