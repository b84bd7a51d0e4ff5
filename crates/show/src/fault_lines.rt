//! The line of a fault.
ghost use Rattle.std.specs.Prelude.{◌≡◌, ◌+◌, ◌≤◌, ◌++◌, length};
ghost use Rattle.show.specs.Faults.{hex_fault_line, fault_line};

use crate::fault_words::put_payload_fault;
use crate::line_texts::{LINE_ROOM, put_field};
use crate::page::{PAGE_LEN, Page};
use bubble::PayloadFault;

/// Appends the line of a word that isn't hexadecimal text.
pub(crate) fn put_hex_fault(place: usize, page: &mut Page)
    requires { length page.old + LINE_ROOM ≤ PAGE_LEN }
    ensures { page.new ≡ page.old ++ hex_fault_line place }
{
    put_field(b"fault hex at ", place, page);
    page.push_text(b"\n");
}

/// Appends the line of a fault.
#[tactic(auto, unfolding(crate::specs::Faults::fault_line))]
pub(crate) fn put_fault(fault: PayloadFault, page: &mut Page)
    requires { length page.old + LINE_ROOM ≤ PAGE_LEN }
    ensures { page.new ≡ page.old ++ fault_line fault }
{
    page.push_text(b"fault");
    put_payload_fault(fault, page);
    page.push_text(b"\n");
}
