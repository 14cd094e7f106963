//! Figures of a histogram of latencies.
ghost use Rattle.std.specs.Prelude.{◌≡◌, ◌<◌, ◌^◌, length, sum};
ghost use Rattle.run_reports.specs.Figures.{greatest, hundredths, is_taken, least, mean, percentile, total};
ghost use Rattle.run_reports.specs.Latencies.{AreFew};

use crate::Latencies;

/// All latencies added up.
fn total(numbers: &[u64]) -> u64
    requires short { length numbers.now < 2 ^ 16 }
    requires few { sum numbers.now < 2 ^ 32 }
    ensures total { result ≡ total numbers.now }
    ensures few { result < 2 ^ 50 }
{
    let mut total = 0;
    for latency in 0..numbers.len() {
        total += latency as u64 * numbers[latency];
    }
    total
}

/// A mean in hundredths, to the nearest one, half ones upwards.
fn hundredths(total: u64, number: u64) -> Option<u64>
    requires total { total < 2 ^ 50 }
    requires number { number < 2 ^ 50 }
    ensures { result ≡ hundredths total number }
{
    if number == 0 {
        return None;
    }
    Some((200 * total + number) / (2 * number))
}

/// Whether some reference has a latency.
fn is_taken(numbers: &[u64], latency: usize) -> bool
    ensures { result ≡ is_taken numbers.now latency }
{
    match numbers.get(latency) {
        Some(number) => *number > 0,
        None => false,
    }
}

impl Latencies {
    /// How many references were answered.
    pub fn number(&self) -> u64
        requires { AreFew self.now }
        ensures { result ≡ sum self.now.histogram.items }
    {
        let mut number = 0;
        for some in self.histogram.as_slice() {
            number += *some;
        }
        number
    }

    /// The mean latency in hundredths of a cycle, to the nearest one, half ones upwards; None where no reference was answered.
    pub fn mean(&self) -> Option<u64>
        requires { AreFew self.now }
        ensures { result ≡ mean self.now.histogram.items }
    {
        let total = total(self.histogram.as_slice());
        hundredths(total, self.number())
    }

    /// The least latency; None where no reference was answered.
    #[tactic(auto, using(crate::proofs::Figuring::first_more, crate::proofs::Figuring::first_on))]
    pub fn least(&self) -> Option<usize>
        ensures { result ≡ least self.now.histogram.items }
    {
        let numbers = self.histogram.as_slice();
        for latency in 0..numbers.len() {
            if is_taken(numbers, latency) {
                return Some(latency);
            }
        }
        None
    }

    /// The greatest latency; None where no reference was answered.
    #[tactic(auto, using(crate::proofs::Figuring::last_more))]
    pub fn greatest(&self) -> Option<usize>
        ensures { result ≡ greatest self.now.histogram.items }
    {
        let mut greatest = None;
        let numbers = self.histogram.as_slice();
        for latency in 0..numbers.len() {
            if is_taken(numbers, latency) {
                greatest = Some(latency);
            }
        }
        greatest
    }

    /// A percentile by the nearest rank: the least latency within which at least so many in a hundred of the answered references
    /// are; None where no reference was answered, or more than all are asked for.
    pub fn percentile(&self, share: u32) -> Option<usize>
        requires { AreFew self.now }
        ensures { result ≡ percentile share self.now.histogram.items }
    {
        let all = self.number();
        let mut within = 0;
        let numbers = self.histogram.as_slice();
        for latency in 0..numbers.len() {
            within += numbers[latency];
            if is_taken(numbers, latency) && u64::from(share) * all <= 100 * within {
                return Some(latency);
            }
        }
        None
    }
}
