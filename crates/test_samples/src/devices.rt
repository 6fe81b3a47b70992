//! What the source and the sink over memory share: a failure is remembered.

ghost use Rattle.std.specs.Prelude.{◌≡◌, ◌||◌, Some, is_err, IfOk};

use line_engine::DeviceFailed;

/// What a device answers: how many bytes went through it, or that the call failed, which it remembers.
pub(crate) fn answer(count: Option<usize>, has_failed: &mut bool) -> Result<usize, DeviceFailed>
    ensures count { IfOk result (λ moved. count ≡ Some moved) }
    ensures failure { has_failed.new ≡ (is_err result || has_failed.old) }
{
    match count {
        Some(count) => Ok(count),
        None => {
            *has_failed = true;
            Err(DeviceFailed)
        }
    }
}
