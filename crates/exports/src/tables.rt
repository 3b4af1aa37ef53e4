// A table put to the start of a run.
ghost use Rattle.std.specs.Prelude.{◌≡◌, ◌++◌, ◌≤◌, drop, length};

// The cells of the table to the start of the run; those after them stay.
pub fn put_table(run: &mut [u64], table: &[u64])
    requires { length table.now ≤ length run.old }
    ensures { run.new ≡ table.now ++ drop (length table.now) run.old }
{
    run[..table.len()].copy_from_slice(table);
}
