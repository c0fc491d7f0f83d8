// The account: plain numbers.
ghost use Rattle.std.specs.Prelude.{◌≡◌, ◌+◌, ◌≤◌, true};
ghost use Rattle.base.specs.Limits.{max_number};
ghost use Rattle.account.specs.Ranges.{end_in_range};

mod arriving;
mod hearing;
mod judging;
mod numbers;
mod opening;
mod placing;
mod releasing;

pub use numbers::Numbers;

/// The account of an open channel. Its parts (shelf, partials, gap list, outlet) are kept beside it and lent to its calls.
#[derive(Drop)]
pub struct Account {
    numbers: Numbers,
    ghost expects: { numbers.next ≤ max_number + 1 },
    ghost hears: { numbers.heard ≤ max_number },
    ghost ends: { end_in_range numbers.«end» ≡ true },
}
