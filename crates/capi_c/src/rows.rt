// PUT and GET of sequential files, with a row of seven words in place of a session.
ghost use Rattle.std.specs.Prelude.{◌≡◌};
ghost use Rattle.rowcalls.specs.Calls.{returned, put_called, get_called};

// PUT.
#[unsafe(no_mangle)]
pub extern "C" fn nasturakh_put(row: &mut [u32], file: &mut [u32], work: &[u32]) -> u64
    ensures { returned result row.new file.new work.now ≡ put_called row.old file.old work.now }
{
    capi::rows::nasturakh_put(row, file, work)
}

// GET.
#[unsafe(no_mangle)]
pub extern "C" fn nasturakh_get(row: &mut [u32], file: &[u32], work: &mut [u32]) -> u64
    ensures { returned result row.new file.now work.new ≡ get_called row.old file.now work.old }
{
    capi::rows::nasturakh_get(row, file, work)
}
