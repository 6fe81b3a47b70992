//! The list of an order's wagons.
ghost use Rattle.std.specs.Prelude.{◌≡◌, ◌++◌, ◌∷◌, if◌then◌else◌, map, OnOk, string_bytes};
ghost use Rattle.dispatch_sheet.specs.Sheet.{list_word, listed_wagons};
ghost use Rattle.reply_texts.specs.Words.{next_word};
ghost use Rattle.dispatch_sheet.specs.inner.Pushed.{listed};

use rail_codes::{WagonNumber, push_ascii};
use reply_texts::line_words::push_word;
use std::alloc::AllocError;
use wagons_and_orders::OrderRow;

/// Adds the list of an order's wagons: the promised ones, then those that filled the order, each of these marked.
pub(crate) fn push_wagon_list(text: &mut String, row: &OrderRow) -> Result<(), AllocError>
    ensures { OnOk result (string_bytes text.new ≡ string_bytes text.old ++ next_word (list_word (listed_wagons row.now))) }
{
    let promised = row.promised();
    let filled = row.filled();
    if promised.is_empty() && filled.is_empty() {
        return push_word(text, "-");
    }
    push_wagons(text, false, promised, "")?;
    push_wagons(text, !promised.is_empty(), filled, "*")
}

/// Adds wagons to a list, each with this mark. `earlier` says that some stand in it already.
fn push_wagons(
    text: &mut String,
    mut earlier: bool,
    wagons: &[WagonNumber],
    mark: &str,
) -> Result<(), AllocError>
    ensures { OnOk result (string_bytes text.new ≡ string_bytes text.old ++ listed earlier (map (λ number. number ++ mark.now) wagons.now)) }
{
    for number in wagons {
        push_wagon(text, earlier, number, mark)?;
        earlier = true;
    }
    Ok(())
}

/// Adds a wagon to a list: behind a comma, or behind a space where none stands in it yet.
fn push_wagon(
    text: &mut String,
    earlier: bool,
    number: &WagonNumber,
    mark: &str,
) -> Result<(), AllocError>
    ensures { OnOk result (string_bytes text.new ≡ string_bytes text.old ++ (if earlier then 44 else 32) ∷ (number.now ++ mark.now)) }
{
    text.push_str(if earlier { "," } else { " " })?;
    push_ascii(text, number.digits())?;
    text.push_str(mark)
}
