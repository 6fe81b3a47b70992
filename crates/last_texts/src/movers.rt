//! Which company moved each wagon of a book last.
ghost use Rattle.std.specs.Prelude.{◌≡◌, ℕ, List, IfOk, OnOk, option_map};
ghost use Rattle.std.specs.BTreeMap.{get};
ghost use Rattle.commit_book.specs.Books.{present_office};
ghost use Rattle.commit_book.specs.EventView.{lent_event};
ghost use Rattle.fleet_rows.specs.Kept.{compare_numbers};
ghost use Rattle.move_messages.specs.declared.event.Event.TheVariants as event;
ghost use Rattle.last_texts.specs.Movers.{has_moved, last_mover, mover_in, mover_of, numbers_of, wagons_moved_by, with_number_where};
ghost use Rattle.std.specs.Option.{option_or};

use commit_book::{Book, EventView};
use move_messages::Message;
use rail_codes::{Company, WagonNumber};
use std::alloc::{AllocError, Global};
use std::collections::BTreeMap;
use wagons_and_orders::WagonRow;

/// The wagons of a book's last version that a company moved last: those whose last accepted message it sent. They ascend by number.
pub(crate) fn wagons_moved_by(
    alloc: Global,
    book: &Book,
    company: Company,
) -> Result<Vec<WagonNumber>, AllocError>
    ensures { IfOk result (λ wagons. wagons.items ≡ wagons_moved_by book.now.state.history company (present_office book.now).office.wagons) }
{
    let movers = last_movers(alloc, book)?;
    moved_by(alloc, &movers, company, book.state().wagon_rows())
}

/// The numbers of those of these wagons that a company moved last.
fn moved_by(
    alloc: Global,
    movers: &BTreeMap<WagonNumber, Company>,
    company: Company,
    rows: &[WagonRow],
) -> Result<Vec<WagonNumber>, AllocError>
    ensures { IfOk result (λ wagons. wagons.items ≡ numbers_of (get compare_numbers movers.now) company rows.now) }
{
    let mut wagons = Vec::new(alloc);
    for row in rows {
        let moved = has_moved(movers, row.number, company);
        push_where(&mut wagons, row.number, moved)?;
    }
    Ok(wagons)
}

/// Adds a wagon where this holds.
fn push_where(
    wagons: &mut Vec<WagonNumber>,
    number: WagonNumber,
    holds: bool,
) -> Result<(), AllocError>
    ensures { OnOk result (wagons.new.items ≡ with_number_where wagons.old.items number holds) }
{
    if !holds {
        return Ok(());
    }
    wagons.push(number)?;
    Ok(())
}

/// Whether a company moved a wagon last.
#[tactic(auto, unfolding(crate::specs::Movers::has_moved))]
fn has_moved(movers: &BTreeMap<WagonNumber, Company>, number: WagonNumber, company: Company) -> bool
    ensures { result ≡ has_moved (get compare_numbers movers.now) company number }
{
    match movers.get(&number) {
        Some(mover) => *mover == company,
        None => false,
    }
}

/// The company of each wagon's last message in a book.
fn last_movers(alloc: Global, book: &Book) -> Result<BTreeMap<WagonNumber, Company>, AllocError>
    ensures { IfOk result (λ movers. (number : List ℕ) → get compare_numbers movers number ≡ last_mover book.now.state.history number) }
{
    let mut movers = BTreeMap::new(alloc);
    for n in 0..book.len() {
        put_mover(&mut movers, book.entry(n + 1))?;
    }
    Ok(movers)
}

/// Notes the company of an entry, if that is a message, as the one that moved its wagon last.
fn put_mover(
    movers: &mut BTreeMap<WagonNumber, Company>,
    entry: Option<EventView<'_>>,
) -> Result<(), AllocError>
    ensures { OnOk result ((number : List ℕ) → get compare_numbers movers.new number ≡ option_or (mover_in (option_map lent_event entry.entry) number) (get compare_numbers movers.old number)) }
{
    match entry {
        Some(EventView::Message(message)) => put_sender(movers, message),
        _ => Ok(()),
    }
}

/// Notes the company of a message as the one that moved its wagon last.
fn put_sender(
    movers: &mut BTreeMap<WagonNumber, Company>,
    message: &Message,
) -> Result<(), AllocError>
    ensures { OnOk result ((number : List ℕ) → get compare_numbers movers.new number ≡ option_or (mover_of (event.Message message.now) number) (get compare_numbers movers.old number)) }
{
    movers.insert(message.wagon, message.id.company)?;
    Ok(())
}
