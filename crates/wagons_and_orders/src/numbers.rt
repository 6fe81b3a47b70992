//! Ascending lists of wagon numbers.
ghost use Rattle.std.specs.Prelude.{◌≡◌, count_by, vec_len, vec_capacity};
ghost use Rattle.std.specs.List.{list_all};
ghost use Rattle.wagons_and_orders.specs.Numbers.{is_below, is_number, without_number};
ghost use Rattle.wagons_and_orders.specs.RowParts.{is_ascending};

use rail_codes::WagonNumber;

/// How many of the numbers are below one.
pub(crate) fn count_below(numbers: &[WagonNumber], number: WagonNumber) -> usize
    ensures { result ≡ count_by (is_below number) numbers.now }
{
    numbers
        .iter()
        .filter(|other| is_below(number, **other))
        .count()
}

/// Takes a number off a list.
#[tactic(auto, unfolding(crate::specs::Numbers::without_number))]
pub(crate) fn take_off(numbers: &mut Vec<WagonNumber>, number: WagonNumber)
    ensures items { numbers.new.items ≡ without_number number numbers.old.items }
    ensures room { vec_capacity numbers.new ≡ vec_capacity numbers.old }
{
    numbers.retain(|other| *other != number);
}

fn is_below(number: WagonNumber, other: WagonNumber) -> bool
    ensures { result ≡ is_below number other }
{
    other.cmp(&number).is_lt()
}

/// Whether each number is below those after it. Of an order there are at most 20.
pub(crate) fn are_ascending(numbers: &[WagonNumber]) -> bool
    ensures { result ≡ is_ascending numbers.now }
{
    match numbers.split_first() {
        None => true,
        Some((first, rest)) => is_below_all(*first, rest) && are_ascending(rest),
    }
}

/// Whether a number is below all of these.
fn is_below_all(number: WagonNumber, others: &[WagonNumber]) -> bool
    ensures { result ≡ list_all (λ other. is_below other number) others.now }
{
    others.iter().all(|other| is_below(*other, number))
}
