//! A clock of given numbers, and the clock of the system.
ghost use Rattle.std.specs.Prelude.{◌≡◌, ◌-◌, ◌<◌, min, length, slice_index, None, Some, [], IfNone};

use crate::outside::Clock;
use std::time::Clock as Time;

/// A clock that gives the numbers of a list in order, and then the last of them again and again. It
/// tells what it gave through its first `u64::MAX` calls.
#[derive(Drop)]
pub struct FixedClock {
    numbers: Vec<u64>,
    // How many calls there were, where a `u64` counts them.
    calls: Option<u64>,
    ghost some: { 0 < length numbers.items },
}

impl FixedClock {
    ghost use Rattle.str_outer.specs.Clocks.{fixed_given, fixed_numbers};

    /// A clock of these numbers, of which there is one at least.
    pub fn new(numbers: Vec<u64>) -> FixedClock
        requires { 0 < length numbers.items }
        ensures numbers { fixed_numbers result ≡ numbers.items }
        ensures given { fixed_given result ≡ Some [] }
    {
        FixedClock {
            numbers,
            calls: Some(0),
        }
    }
}

// The number at a place of the list, or its last one.
fn number_at(numbers: &[u64], place: u64) -> u64
    requires { 0 < length numbers.now }
    ensures { result ≡ slice_index numbers.now (min place (length numbers.now - 1)) }
{
    let last = numbers.len() - 1;
    let place = usize::try_from(place).unwrap_or(last).min(last);
    numbers[place]
}

impl Clock for FixedClock {
    ghost use Rattle.str_outer.specs.Clocks.{Gives, fixed_given, fixed_numbers, last_of};

    ghost given = { fixed_given };

    #[tactic(auto, using(crate::proofs::Given::given_next))]
    fn now(&mut self) -> u64
        ensures given { Gives (fixed_given self.old) (fixed_given self.new) result }
        ensures numbers { fixed_numbers self.new ≡ fixed_numbers self.old }
        ensures last { IfNone (fixed_given self.old) (result ≡ last_of (fixed_numbers self.old)) }
    {
        let Some(calls) = self.calls else {
            return self.numbers[self.numbers.len() - 1];
        };
        self.calls = calls.checked_add(1);
        number_at(&self.numbers, calls)
    }
}

/// The clock of the system, which the runtime reads. It gives milliseconds since 1970, and its last
/// number, 0 at first, where the system gives none. It never tells what it gave.
#[derive(Drop)]
pub struct RealClock<R> {
    rt: R,
    last: u64,
}

impl<R: Time> RealClock<R> {
    ghost use Rattle.str_outer.specs.Clocks.{real_last};

    /// A clock that has given no number.
    pub fn new(rt: R) -> RealClock<R>
        ensures { real_last result ≡ 0 }
    {
        RealClock { rt, last: 0 }
    }
}

impl<R: Time> Clock for RealClock<R> {
    ghost use Rattle.str_outer.specs.Clocks.{Gives, real_last};

    ghost given = { λ _. None };

    fn now(&mut self) -> u64
        ensures given { Gives None None result }
        ensures last { real_last self.new ≡ result }
    {
        if let Ok(time) = self.rt.since_1970() {
            if let Ok(millis) = u64::try_from(time.as_millis()) {
                self.last = millis;
            }
        }
        self.last
    }
}
