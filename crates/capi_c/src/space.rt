// The space of so many names for programs in other languages: what a planner asks before a file is made.
ghost use Rattle.std.specs.Prelude.{◌≡◌};
ghost use Rattle.demands.specs.Space.{most_sections, most_blocks};
ghost use Rattle.capi.specs.Space.{space_in};

// The most blocks that so many names take, put in by NSERT in any order; 2^64 - 1 where there is no session.
#[unsafe(no_mangle)]
pub extern "C" fn nasturakh_most_blocks(session: &[u32], names: u32) -> u64
    ensures { result ≡ space_in most_blocks session.now names }
{
    capi::space::nasturakh_most_blocks(session, names)
}

// The most sections that they take; 2^64 - 1 where there is no session.
#[unsafe(no_mangle)]
pub extern "C" fn nasturakh_most_sections(session: &[u32], names: u32) -> u64
    ensures { result ≡ space_in most_sections session.now names }
{
    capi::space::nasturakh_most_sections(session, names)
}
