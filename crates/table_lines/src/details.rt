//! The details of a table line's refusal, behind its number.
ghost use Rattle.std.specs.Prelude.{◌≡◌, ◌++◌, OnOk};
ghost use Rattle.table_lines.specs.TableDetails.{table_details, table_line_details};

use crate::table_refusal::TableRefusal;
use cost_table::TableFault;
use line_engine::ReplyText;
use reply_texts::{Detailed, push_word};
use std::alloc::AllocError;

/// Adds the details of a table's fault.
fn push_table_details(reply: &mut ReplyText, fault: &TableFault) -> Result<(), AllocError>
    ensures { OnOk result (reply.new ≡ reply.old ++ table_details fault.now) }
{
    match fault {
        TableFault::DuplicateWagon(wagon) => push_word(reply, wagon.digits()),
        TableFault::DuplicateOrder(order) => push_word(reply, order.as_bytes()),
        TableFault::OutOfMemory | TableFault::TooLarge | TableFault::UnevenRows => Ok(()),
    }
}

impl Detailed for TableRefusal {
    ghost details = { table_line_details };

    fn push_details(&self, reply: &mut ReplyText) -> Result<(), AllocError> {
        match self {
            TableRefusal::OutOfMemory | TableRefusal::PlanTooLong => Ok(()),
            TableRefusal::Line(fault) => fault.push_details(reply),
            TableRefusal::Table(fault) => push_table_details(reply, fault),
            TableRefusal::Check(fault) => fault.push_details(reply),
        }
    }
}
