//! In which sequence the orders are taken in.
ghost use Rattle.std.specs.Prelude.{◌≡◌, IfOk, length};
ghost use Rattle.assignment.specs.inner.Sequence.{IsSequence};

use std::alloc::{AllocError, Global};

/// All orders, each with its price: the dearest first.
pub(crate) fn dearest_first(alloc: Global, v: &[u32]) -> Result<Vec<(u32, usize)>, AllocError>
    ensures { IfOk result (λ sequence. IsSequence (length v.now) sequence.items) }
{
    let mut sequence = Vec::new(alloc);
    'orders: for j in 0..v.len() {
        sequence.push((v[j], j))?;
    }
    sequence.sort()?;
    sequence.reverse();
    Ok(sequence)
}
