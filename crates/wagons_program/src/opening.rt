//! The first book of an office, and how a book is left.
ghost use Rattle.std.specs.Prelude.{◌≡◌, IfOk, length};
ghost use Rattle.wagons_program.specs.FirstBook.{IsFirstBook};

use command_line::OfficeOptions;
use commit_book::Book;
use line_network::{Network, Networks, OpenGate, Tables, tables_by_workers};
use office_files::Stop;
use operating_db::OfficeState;
use std::mem;
use std::sync::{Arc, Wait};
use std::thread::Threads;

/// A book without entries over this office and these networks, whose distances are worked out here.
pub(crate) fn new_book<R: Threads + Wait + AllocGlobal>(
    rt: &R,
    options: &OfficeOptions<'_>,
    first: OfficeState,
    networks: &[Network],
) -> Result<Book, Stop>
    requires { first.networks ≡ length networks.now }
    ensures { IfOk result (IsFirstBook first.office networks.now options.now.limits) }
{
    let tables = make_tables(rt, networks, options.workers)?;
    let networks = match Networks::new(tables) {
        Ok(networks) => Arc::new(rt.alloc(), networks)?,
        Err(fault) => return Err(Stop::Networks(fault)),
    };
    Ok(Book::from_office(rt.alloc(), first, networks, options.limits)?)
}

/// The distances in each network.
fn make_tables<R: Threads + Wait + AllocGlobal>(
    rt: &R,
    networks: &[Network],
    workers: usize,
) -> Result<Vec<Tables>, Stop>
    ensures { IfOk result (λ tables. tables.items ≡ networks.now) }
{
    let mut tables = Vec::with_capacity(rt.alloc(), networks.len())?;
    for network in networks {
        match tables_by_workers(rt, rt.alloc(), network, workers, &OpenGate) {
            Ok(made) => tables.push(made)?,
            Err(fault) => return Err(Stop::Tables(fault)),
        }
    }
    Ok(tables)
}

/// Leaves a book to the end of the program, which follows at once and gives all memory back as a whole. To take a long
/// history and its index apart first would only take time.
pub(crate) fn leave_book(book: Book) {
    mem::forget(book);
}

/// The same for an office.
pub(crate) fn leave_office(office: OfficeState) {
    mem::forget(office);
}
