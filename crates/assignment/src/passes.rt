//! Passes over groups, without a branch in their loops, so that the compiler makes vector code of them.
ghost use Rattle.std.specs.Prelude.{◌≡◌, ◌<◌, ◌≤◌, ◌+◌, ◌-◌, ◌^◌, ◌==◌, ℕ, false, if◌then◌else◌, length, slice_index, IfSome, IfNone};
ghost use Rattle.assignment.specs.inner.Groups.{prices_of};
ghost use Rattle.assignment.specs.inner.Passes.{AreRelaxed, HasIdle, IsFound, IsFoundIdle, IsLeastIdle, IsNearest, IsSpanOf};

use crate::groups::NO_WAGON;

/// The distance of what a search hasn't reached; distances are in kilometres.
pub(crate) const FAR: u32 = u32::MAX;

/// Some groups side by side: those from its start on and before its end.
#[derive(Clone, Copy)]
pub(crate) struct Span {
    pub(crate) start: usize,
    pub(crate) end: usize,
}

/// One of two numbers, without a branch.
fn choose(is: bool, yes: u32, no: u32) -> u32
    ensures { result ≡ (if is then yes else no) }
{
    let mask = 0u32.wrapping_sub(u32::from(is));
    (yes & mask) | (no & !mask)
}

/// Relaxes all cells of an order at this distance and price, both in kilometres. `ahead` is one more than the distance of
/// each group that leads on, and 0 of each other group, so that it stays 0. All groups that lead on are in the span, and
/// the pass goes over it alone. Answers the least distance of a group that leads on, `FAR` where none does.
// In a function of its own, so that it is vector code whatever stands around it.
#[inline(never)]
pub(crate) fn relax(
    ahead: &mut [u32],
    span: Span,
    costs: &[u32],
    u: &[u32],
    distance: u32,
    price: u32,
) -> u32
    requires span { IsSpanOf ahead.old span }
    requires costs { length costs.now ≡ length ahead.old }
    requires prices { length u.now ≡ length ahead.old }
    requires no_gap { (g : ℕ) → g < length ahead.old → price ≤ slice_index costs.now g + slice_index u.now g }
    requires limit { (g : ℕ) → g < length ahead.old → slice_index costs.now g + slice_index u.now g + (distance + 1) < 2 ^ 32 }
    requires distance { distance + 1 < 2 ^ 32 }
    ensures ahead { AreRelaxed distance price costs.now u.now ahead.old ahead.new }
    ensures nearest { IsNearest (slice_index ahead.new) result (length ahead.new) }
{
    let next = distance + 1;
    let mut onward = FAR;
    for g in span.start..span.end {
        let nearer = ahead[g].min(costs[g] + u[g] - price + next);
        ahead[g] = nearer;
        onward = onward.min(nearer.wrapping_sub(1));
    }
    onward
}

/// The least distance of a group that leads on, `FAR` where none does. All that lead on are in the span.
#[inline(never)]
pub(crate) fn nearest(ahead: &[u32], span: Span) -> u32
    requires { IsSpanOf ahead.now span }
    ensures { IsNearest (slice_index ahead.now) result (length ahead.now) }
{
    let mut onward = FAR;
    for g in span.start..span.end {
        onward = onward.min(ahead[g].wrapping_sub(1));
    }
    onward
}

/// The span without the groups at both its ends that don't lead on.
pub(crate) fn narrowed(ahead: &[u32], span: Span) -> Span
    requires { IsSpanOf ahead.now span }
    ensures { IsSpanOf ahead.now result }
{
    let mut start = span.start;
    'starts: while start < span.end && ahead[start] == 0 {
        start += 1;
    }
    let mut end = span.end;
    'ends: while start < end && ahead[end - 1] == 0 {
        end -= 1;
    }
    Span { start, end }
}

/// Each group without an idle wagon leads on, and nothing has reached it; no other leads on.
#[inline(never)]
pub(crate) fn open(ahead: &mut [u32], idle: &[u32])
    requires { length idle.now ≡ length ahead.old }
    ensures { (g : ℕ) → g < length ahead.old → slice_index ahead.new g ≡ (if slice_index idle.now g == NO_WAGON then FAR else 0) }
{
    for g in 0..ahead.len() {
        ahead[g] = choose(idle[g] == NO_WAGON, FAR, 0);
    }
}

/// The least cost of a group with an idle wagon, `FAR` where there is none.
#[inline(never)]
pub(crate) fn least_idle(costs: &[u32], idle: &[u32]) -> u32
    requires { length idle.now ≡ length costs.now }
    ensures { IsLeastIdle costs.now idle.now result (length costs.now) }
{
    let mut least = FAR;
    for g in 0..costs.len() {
        least = least.min(choose(idle[g] == NO_WAGON, FAR, costs[g]));
    }
    least
}

/// The first group with an idle wagon that has this cost.
pub(crate) fn find_idle(costs: &[u32], idle: &[u32], cost: u32) -> Option<usize>
    requires idle { length idle.now ≡ length costs.now }
    ensures found { IfSome result (IsFoundIdle costs.now idle.now cost (length costs.now)) }
    ensures none { IfNone result ((g : ℕ) → g < length costs.now → slice_index costs.now g ≡ cost → HasIdle idle.now g → ⊥) }
{
    let mut span = Span {
        start: 0,
        end: costs.len(),
    };
    'groups: while let Some(group) = find(costs, cost, span) {
        if idle[group] != NO_WAGON {
            return Some(group);
        }
        span.start = group + 1;
    }
    None
}

/// How many groups `find` looks at together.
const BLOCK: usize = 32;

/// The first group of the span that has this number.
pub(crate) fn find(numbers: &[u32], number: u32, span: Span) -> Option<usize>
    requires ordered { span.start ≤ span.end }
    requires within { span.end ≤ length numbers.now }
    ensures found { IfSome result (IsFound numbers.now number span) }
    ensures none { IfNone result ((g : ℕ) → span.start ≤ g → g < span.end → slice_index numbers.now g ≡ number → ⊥) }
{
    let mut block = span.start;
    'blocks: while span.end - block >= BLOCK && !has(&numbers[block..block + BLOCK], number) {
        block += BLOCK;
    }
    'groups: for g in block..span.end {
        if numbers[g] == number {
            return Some(g);
        }
    }
    None
}

/// Whether one of these groups has this number.
// Inlined where it is known how many they are.
#[inline(always)]
fn has(numbers: &[u32], number: u32) -> bool
    ensures { result ≡ false → (g : ℕ) → g < length numbers.now → slice_index numbers.now g ≡ number → ⊥ }
{
    let mut found = false;
    for g in 0..numbers.len() {
        found |= numbers[g] == number;
    }
    found
}

/// Raises each price by how much nearer than the end its group or order is.
#[inline(never)]
pub(crate) fn raise(prices: &mut [u32], distances: &[u32], end: u32)
    requires lengths { length distances.now ≡ length prices.old }
    requires limit { (i : ℕ) → i < length prices.old → slice_index prices.old i + end < 2 ^ 32 }
    ensures { (i : ℕ) → i < length prices.old → slice_index prices.new i ≡ slice_index prices.old i + (end - slice_index distances.now i) }
{
    for i in 0..prices.len() {
        prices[i] += end.saturating_sub(distances[i]);
    }
}

/// Writes the same numbers in a wider type.
pub(crate) fn widen(wide: &mut [u64], numbers: &[u32])
    requires { length wide.old ≡ length numbers.now }
    ensures { wide.new ≡ numbers.now }
{
    for i in 0..numbers.len() {
        wide[i] = u64::from(numbers[i]);
    }
}

/// Writes the number of each wagon's group, in a wider type.
pub(crate) fn spread(wide: &mut [u64], groups: &[usize], numbers: &[u32])
    requires lengths { length wide.old ≡ length groups.now }
    requires within { (i : ℕ) → i < length groups.now → slice_index groups.now i < length numbers.now }
    ensures { wide.new ≡ prices_of groups.now numbers.now }
{
    for i in 0..groups.len() {
        wide[i] = u64::from(numbers[groups[i]]);
    }
}
