//! The tokens of a commit, written one after the other. `Err` only when out of memory; some of them may be there then.
ghost use Rattle.std.specs.Prelude.{◌≡◌, ◌++◌, ◌∷◌, [], codes, map, All, OnOk};
ghost use Rattle.json.specs.Token.{begin_object, end_object};
ghost use Rattle.serde_json.specs.Data.{string};
ghost use Rattle.line_fields.specs.Written.{list_data, number_data, pair_data};
ghost use Rattle.line_fields.specs.WrittenTokens.{data_tokens, member_tokens};
ghost use Rattle.price_checker.specs.Snap.{IsInRange, named_pair};
ghost use Rattle.dispatch_sheet.specs.Certificate.{commit_data, commit_with, pairs_data};
ghost use Rattle.dispatch_sheet.specs.inner.Readable.{AreReadablePrices, IsReadable, IsReadablePair};

use cost_table::{Plan, Problem};
use json::Writer;
use line_fields::code_str;
use price_checker::{Prices, Snap, order_name, wagon_name};
use rail_codes::{OrderId, WagonNumber};
use std::alloc::AllocError;

/// Writes the commit of a plan and its prices, with the text of its moment. Each pair of the plan must be a wagon's and
/// an order's position in the problem.
pub(crate) fn write_commit(
    out: &mut Writer,
    snap: &Snap,
    plan: &Plan,
    prices: &Prices,
    at: &str,
) -> Result<(), AllocError>
    requires { All (IsInRange snap.now.problem) plan.now }
    ensures tokens { OnOk result (out.new.tokens ≡ out.old.tokens ++ data_tokens (commit_data (commit_with snap.now plan.now prices.now) at.now)) }
    ensures before { out.new.before ≡ out.old.before }
    ensures readable { OnOk result (IsReadable (commit_with snap.now plan.now prices.now)) }
{
    write_moment(out, at)?;
    write_pairs(out, snap.problem(), plan.pairs())?;
    write_type(out)?;
    write_prices(out, "u", &prices.u)?;
    write_prices(out, "v", &prices.v)?;
    write_version(out, snap.version())
}

/// Begins the object, and writes its moment.
fn write_moment(out: &mut Writer, at: &str) -> Result<(), AllocError>
    ensures tokens { OnOk result (out.new.tokens ≡ out.old.tokens ++ begin_object ∷ member_tokens (codes "at") (string at.now)) }
    ensures before { out.new.before ≡ out.old.before }
{
    out.begin_object()?;
    out.key("at")?;
    out.string(at)
}

/// Writes the pairs at these positions by name.
fn write_pairs(
    out: &mut Writer,
    problem: &Problem,
    positions: &[(usize, usize)],
) -> Result<(), AllocError>
    requires { All (IsInRange problem.now) positions.now }
    ensures tokens { OnOk result (out.new.tokens ≡ out.old.tokens ++ member_tokens (codes "pairs") (pairs_data problem.now positions.now)) }
    ensures before { out.new.before ≡ out.old.before }
    ensures readable { OnOk result (All IsReadablePair (map (named_pair problem.now) positions.now)) }
{
    out.key("pairs")?;
    out.begin_array()?;
    for (i, j) in positions {
        write_pair(out, wagon_name(problem, *i), order_name(problem, *j))?;
    }
    out.end_array()
}

/// Writes a wagon and an order, as a list of two texts.
fn write_pair(out: &mut Writer, number: WagonNumber, id: OrderId) -> Result<(), AllocError>
    ensures tokens { OnOk result (out.new.tokens ≡ out.old.tokens ++ data_tokens (pair_data (number, id))) }
    ensures before { out.new.before ≡ out.old.before }
    ensures readable { OnOk result (IsReadablePair (number, id)) }
{
    out.begin_array()?;
    out.string(code_str(&number))?;
    out.string(code_str(&id))?;
    out.end_array()
}

/// Writes the type.
fn write_type(out: &mut Writer) -> Result<(), AllocError>
    ensures tokens { OnOk result (out.new.tokens ≡ out.old.tokens ++ member_tokens (codes "type") (string (codes "commit"))) }
    ensures before { out.new.before ≡ out.old.before }
{
    out.key("type")?;
    out.string("commit")
}

/// Writes prices under a name.
fn write_prices(out: &mut Writer, name: &str, prices: &[u64]) -> Result<(), AllocError>
    ensures tokens { OnOk result (out.new.tokens ≡ out.old.tokens ++ member_tokens name.now (list_data number_data prices.now)) }
    ensures before { out.new.before ≡ out.old.before }
    ensures readable { AreReadablePrices prices.now }
{
    out.key(name)?;
    out.begin_array()?;
    for price in prices {
        out.u64(*price)?;
    }
    out.end_array()
}

/// Writes the version, and ends the object.
fn write_version(out: &mut Writer, version: u64) -> Result<(), AllocError>
    ensures tokens { OnOk result (out.new.tokens ≡ out.old.tokens ++ (member_tokens (codes "version") (number_data version) ++ end_object ∷ [])) }
    ensures before { out.new.before ≡ out.old.before }
{
    out.key("version")?;
    out.u64(version)?;
    out.end_object()
}
