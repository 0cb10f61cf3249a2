//! The sequence numbers of all sources, in one vector: a row for each source that there is room
//! for, and in a row the newest number first.

ghost use Rattle.std.specs.Prelude.{◌≡◌, ◌+◌, ◌*◌, ◌<◌, ◌≤◌, [], vec_len};
ghost use Rattle.std.specs.Prelude.{All, IfOk, vec_capacity};
ghost use Rattle.its_loctable.specs.Rows.{put_before, AreOwned};

use its_gnvalue::NoMemory;
use std::alloc::Global;

/// The numbers of all rows: below a capacity, each once.
pub fn all_rows(alloc: Global, capacity: u16) -> Result<Vec<u16>, NoMemory>
    ensures len { IfOk result (λ rows. vec_len rows ≡ capacity) }
    ensures room { IfOk result (λ rows. capacity ≤ vec_capacity rows) }
    ensures below { IfOk result (λ rows. All (λ row. row < capacity) rows.items) }
    ensures owned { IfOk result (λ rows. AreOwned [] rows.items) }
{
    let mut rows = Vec::with_capacity(alloc, capacity as usize)?;
    for row in 0..capacity {
        rows.push_reserved(row);
    }
    Ok(rows)
}

/// Where a row begins.
pub fn start_of(row: u16, remembered: u8) -> usize
    ensures { result ≡ row * remembered }
{
    row as usize * remembered as usize
}

/// Puts a number before so many others, which begin at a place. What stood behind them goes.
pub fn insert_first(numbers: &mut Vec<u16>, start: usize, kept: usize, number: u16)
    requires { start + kept < vec_len numbers.old }
    ensures items { numbers.new.items ≡ put_before numbers.old.items start kept number }
    ensures len { vec_len numbers.new ≡ vec_len numbers.old }
{
    numbers.copy_within(start..start + kept, start + 1);
    numbers[start] = number;
}
