// Nine worked runs, proved as one table: files with their tables, verdicts, replies and refusals.
#![tactic(auto)]

ghost use Rattle.std.specs.Prelude.{◌≡◌, length};
ghost use Rattle.worked.specs.Worked.{runs, WorkedRuns};

pub mod files;

// How many worked runs there are. Each of them holds.
pub fn run_count() -> usize
    ensures count { result ≡ length runs }
    ensures hold { WorkedRuns }
{
    9
}
