// Zeros at the end of a schedule.
ghost use Rattle.std.specs.Prelude.{◌≤◌, length, take};
ghost use Rattle.run_search.specs.Spent.{IsCut};

// How many numbers are left without the zeros at the end.
#[tactic(auto, using(crate::specs::Spent::cutting))]
fn count_kept(schedule: &[u32]) -> usize
    ensures within { result ≤ length schedule.now }
    ensures cut { IsCut schedule.now (take result schedule.now) }
{
    let mut count = schedule.len();
    while count > 0 {
        let last = schedule[count - 1];
        if last > 0 {
            return count;
        }
        count -= 1;
    }
    count
}

// Drops the zeros at the end of a schedule. After the last number each pick is 0, so the run is the same.
pub fn drop_zeros(schedule: &mut Vec<u32>)
    ensures { IsCut schedule.old.items schedule.new.items }
{
    let count = count_kept(schedule);
    schedule.truncate(count);
}
