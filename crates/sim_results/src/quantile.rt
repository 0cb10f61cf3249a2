//! Quantiles of a list of numbers.

use its_gnvalue::NoMemory;

/// The least, two quantiles and the greatest of a list of numbers. All are 0 if the list is empty.
#[derive(Clone, Copy, Default)]
pub(crate) struct Quantiles {
    pub(crate) least: u64,
    /// The median: the least number that at least 50% of the numbers don't exceed.
    pub(crate) p50: u64,
    /// The least number that at least 95% of the numbers don't exceed.
    pub(crate) p95: u64,
    pub(crate) most: u64,
}

impl Quantiles {
    /// Sorts these numbers, and returns their quantiles.
    pub(crate) fn of(numbers: &mut Vec<u64>) -> Result<Quantiles, NoMemory> {
        numbers.sort()?;
        let sorted = numbers.as_slice();
        Ok(Quantiles {
            least: sorted.first().copied().unwrap_or(0),
            p50: hundredth(sorted, 50),
            p95: hundredth(sorted, 95),
            most: sorted.last().copied().unwrap_or(0),
        })
    }
}

/// Returns the least of these sorted numbers that at least `hundredths` percent of them don't
/// exceed. 0 without any number.
fn hundredth(sorted: &[u64], hundredths: u64) -> u64 {
    let count = sorted.len() as u64;
    let place = count
        .saturating_mul(hundredths)
        .div_ceil(100)
        .saturating_sub(1);
    sorted.get(place as usize).copied().unwrap_or(0)
}
