// A run's counter (02: the run record): what the calls ask of it, and how they write it.
ghost use Rattle.std.specs.Prelude.{◌≡◌, [], ◌∷◌, length};
ghost use Rattle.plan.specs.Causes.{refusal, unless};
ghost use Rattle.paging.specs.Calls.{one_cell, current};

use paging::MOST_PROBES;
use plan::Cause;

// 18 refuses the counter of a fresh start that is not one cell.
pub fn check_counter(counter: &[u64]) -> Result<(), Cause>
    ensures { refusal result ≡ unless (one_cell counter.now) 18 }
{
    if counter.len() != 1 {
        return Err(Cause::WrongCounter);
    }
    Ok(())
}

// Whether the counter is that of a ticket with this count.
pub fn agrees(counter: &[u64], count: u64) -> bool
    ensures { result ≡ current count counter.now }
{
    counter.len() == 1 && counter[0] < MOST_PROBES && counter[0] == count
}

// Writes a count into a counter of one cell.
pub fn write_count(counter: &mut [u64], count: u64)
    requires { length counter.old ≡ 1 }
    ensures { counter.new ≡ count ∷ [] }
{
    counter[0] = count;
}
