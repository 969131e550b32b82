//! The meter of an expansion: what is counted through all expansions of a unit.
ghost use Rattle.std.specs.Prelude.{◌≡◌, IfOk};
ghost use Rattle.ppexpand.specs.Budget.{new_meter, is_exhausted, spend_one, give_back_one, count_on};

use pptext::Memory;

/// What is counted through all expansions of a unit.
#[derive(Clone, Copy, PartialEq, Eq, Debug)]
pub struct Meter {
    /// The budget: how many replacements and file openings may still be made. `None` means no limit, and nothing is counted.
    pub remaining: Option<u64>,
    /// The number that replaces the next `__COUNTER__` (gcc's manual, "Common Predefined Macros").
    pub counter: u32,
}

impl Meter {
    /// Creates the meter of a unit with this budget.
    pub fn new(budget: Option<u64>) -> Meter
        ensures { result ≡ new_meter budget }
    {
        Meter {
            remaining: budget,
            counter: 0,
        }
    }

    /// Returns whether there is a budget and nothing remains of it. Does not allocate.
    pub fn is_exhausted(self) -> bool
        ensures { result ≡ is_exhausted self }
    {
        matches!(self.remaining, Some(0))
    }

    /// Returns the meter after one more replacement or file opening: of the budget 0 remains if 0 was left, and `None` if there is no
    /// budget.
    ///
    /// Does not allocate.
    pub fn spend_one(self) -> Meter
        ensures { result ≡ spend_one self }
    {
        let mut after = self;
        if let Some(more) = self.remaining {
            after.remaining = Some(more.saturating_sub(1));
        }
        after
    }

    /// Returns the meter before a replacement that this meter counts already. Does not allocate. Fails only if the budget is
    /// 18,446,744,073,709,551,615, which no meter has after a replacement.
    pub fn give_back_one(self) -> Result<Meter, Memory>
        ensures { IfOk result (λ meter. meter ≡ give_back_one self) }
    {
        let mut before = self;
        if let Some(remaining) = self.remaining {
            let Some(more) = remaining.checked_add(1) else {
                return Err(Memory);
            };
            before.remaining = Some(more);
        }
        Ok(before)
    }

    /// Returns the meter after one more replacement of `__COUNTER__`. After 4,294,967,295 the counter is 0 again. Does not allocate.
    pub fn count_on(self) -> Meter
        ensures { result ≡ count_on self }
    {
        let mut after = self.spend_one();
        after.counter = self.counter.wrapping_add(1);
        after
    }
}
