//! The line of a plan's certificate.
ghost use Rattle.std.specs.Prelude.{◌≡◌, All, IfOk, Ok, string_bytes};
ghost use Rattle.line_fields.specs.Commands.{command_of};
ghost use Rattle.line_fields.specs.declared.command.Command.TheVariants.{Event};
ghost use Rattle.move_messages.specs.declared.event.Event.TheVariants.{Commit};
ghost use Rattle.price_checker.specs.Snap.{IsInRange};
ghost use Rattle.dispatch_sheet.specs.Certificate.{commit_with, IsCertificateLine};

use crate::commit_tokens::write_commit;
use cost_table::Plan;
use json::Writer;
use line_fields::written_text;
use price_checker::{Prices, Snap};
use std::alloc::{AllocError, Global};

/// The commit of a plan and its prices as one line of JSON, without its line feed: members ascending by name, and no
/// space. It reads as that commit. Each pair of the plan must be a wagon's and an order's position in the problem.
pub fn certificate_line(
    alloc: Global,
    snap: &Snap,
    plan: &Plan,
    prices: &Prices,
) -> Result<String, AllocError>
    requires { All (IsInRange snap.now.problem) plan.now }
    ensures text { IfOk result (λ line. IsCertificateLine (commit_with snap.now plan.now prices.now) (string_bytes line)) }
    ensures reads { IfOk result (λ line. command_of (string_bytes line) ≡ Ok (Event (Commit (commit_with snap.now plan.now prices.now)))) }
{
    let at = snap.at().text(alloc)?;
    let mut out = Writer::new(Vec::new(alloc));
    write_commit(&mut out, snap, plan, prices, &at)?;
    Ok(written_text(out))
}
