//! The line of a scenario that isn't one for NATs behind others.
ghost use Rattle.std.specs.Prelude.{◌≡◌};
ghost use Rattle.teredo_app.specs.NestedLine.{not_nested_line};

use commands::put_part;
use td_base::LineBuf;

/// Why a scenario isn't played with NATs behind others.
#[derive(Clone, Copy, Debug, PartialEq, Eq)]
pub enum NotNested {
    /// The text asks for no chain of its NATs.
    Chain,
    /// A node is a relay or a native host.
    Nodes,
    /// The event of this number, counted from 0, is left out there, and none before it.
    Event { index: u32 },
}

/// Puts the line that says why in place of what the buffer held.
pub fn put_not_nested_line(why: NotNested, out: &mut LineBuf)
    ensures { out.new ≡ not_nested_line why }
{
    out.clear();
    match why {
        NotNested::Chain => out.push_text(b"nested: chain\n"),
        NotNested::Nodes => out.push_text(b"nested: nodes\n"),
        NotNested::Event { index } => {
            put_part(b"nested events[", u64::from(index), out);
            out.push_text(b"]\n");
        }
    }
}
