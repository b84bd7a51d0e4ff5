//! A table of a text: the whole of it, or one of a list.
ghost use Rattle.std.specs.Prelude.{◌≡◌, ◌+◌, ◌≤◌, length};
ghost use Rattle.scenario.specs.Paths.{row_path, path_begin, key_path};

use crate::node_kind::{LIST_KEY_LEN, NodeKind};
use crate::path::{INDEX_DIGITS, Path};

/// Which table of a text: the text's own, or that of a list with this number, from 0.
#[derive(Clone, Copy, Debug)]
pub(crate) enum Place {
    Text,
    Row { kind: NodeKind, index: u16 },
}

/// The path of a table of a list, as `client[0]`.
pub(crate) fn row_path(kind: NodeKind, index: u16) -> Path
    ensures value { result ≡ row_path kind index }
    ensures short { length result ≤ LIST_KEY_LEN + INDEX_DIGITS + 2 }
{
    let mut path = Path::new();
    path.push_text(kind.list_key().as_bytes());
    path.push_text(b"[");
    path.push_number(index);
    path.push_text(b"]");
    path
}

impl Place {
    /// What stands before a key.
    fn path_begin(self) -> Path
        ensures value { result ≡ path_begin self }
        ensures short { length result ≤ LIST_KEY_LEN + INDEX_DIGITS + 3 }
    {
        match self {
            Place::Text => Path::new(),
            Place::Row { kind, index } => {
                let mut path = row_path(kind, index);
                path.push_text(b".");
                path
            }
        }
    }

    /// The path of a key.
    #[tactic(auto, unfolding(crate::specs::Paths::key_path))]
    pub(crate) fn key_path(self, key: &str) -> Path
        ensures { result ≡ key_path self key.now }
    {
        let mut path = self.path_begin();
        path.push_key(key.as_bytes());
        path
    }
}
