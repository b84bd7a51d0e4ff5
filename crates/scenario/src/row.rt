//! A table of a text, read key by key.
ghost use Rattle.std.specs.Prelude.{◌≡◌, map, option_map, string_bytes, ok_or};
ghost use Rattle.std.specs.List.{list_any, find};
ghost use Rattle.std.specs.List.Sorted.{IsStrictlySortedBy};
ghost use Rattle.std.specs.String.{string_cmp};
ghost use Rattle.std.specs.BTreeMap.{keys};
ghost use Rattle.toml.specs.View.{view, table_view, items_view};
ghost use Rattle.toml.specs.Data.{get_member};
ghost use Rattle.td_base.specs.Results.{Gives};
ghost use Rattle.td_base.specs.Values.{same_text};
ghost use Rattle.scenario.specs.Keys.{is_unknown, unknown_key, only_keys, value_at, text_at, integer_at, list_at, typed, ruled, recognized};

use crate::place::Place;
use crate::scenario_fault::ScenarioFault;
use toml::{Table, Value};

/// A table, and where it stands.
#[derive(Clone, Copy)]
pub(crate) struct Row<'a> {
    pub(crate) place: Place,
    pub(crate) table: &'a Table,
}

fn is_one_of(text: &str, texts: &[&str]) -> bool
    ensures { result ≡ list_any (λ one. same_text text.now one.now) texts.now }
{
    texts.iter().any(|one| text == *one)
}

fn is_unknown(key: &str, known: &[&str]) -> bool
    ensures { result ≡ is_unknown (map (λ one. one.now) known.now) key.now }
{
    !is_one_of(key, known)
}

/// The first unknown key. The keys of a table stand in byte order.
fn first_unknown<'a>(table: &'a Table, known: &[&str]) -> Option<&'a String>
    ensures first { option_map (λ key. key.now) result ≡ find (λ key. is_unknown (map (λ one. one.now) known.now) (string_bytes key)) (keys table.now) }
    ensures ordered { IsStrictlySortedBy string_cmp (keys table.now) }
{
    table.keys().find(|key| is_unknown(key.as_str(), known))
}

/// The least unknown key.
fn unknown_key<'a>(table: &'a Table, known: &[&str]) -> Option<&'a String>
    ensures { option_map (λ key. string_bytes key.now) result ≡ unknown_key (map (λ one. one.now) known.now) (table_view table.now) }
{
    first_unknown(table, known)
}

/// What a table has at a key.
fn found<'a>(table: &'a Table, key: &str) -> Option<&'a Value>
    ensures { option_map (λ v. view v.now) result ≡ get_member key.now (table_view table.now) }
{
    table.get(key)
}

impl<'a> Row<'a> {
    /// What it has at a key that may be missing.
    pub(crate) fn given(&self, key: &str) -> Option<&'a Value>
        ensures { option_map (λ v. view v.now) result ≡ get_member key.now (table_view self.now.table.now) }
    {
        found(self.table, key)
    }

    /// Refuses each key but these.
    pub(crate) fn only_keys(&self, known: &[&str]) -> Result<(), ScenarioFault>
        ensures { result ≡ only_keys (map (λ one. one.now) known.now) self.now.place (table_view self.now.table.now) }
    {
        match unknown_key(self.table, known) {
            Some(key) => Err(ScenarioFault::Key {
                path: self.place.key_path(key.as_str()),
            }),
            None => Ok(()),
        }
    }

    /// What it has at a key that is required.
    fn value(&self, key: &str) -> Result<&'a Value, ScenarioFault>
        ensures { Gives (λ v. view v.now) result (value_at self.now.place key.now (table_view self.now.table.now)) }
    {
        match self.given(key) {
            Some(value) => Ok(value),
            None => Err(ScenarioFault::Key {
                path: self.place.key_path(key),
            }),
        }
    }

    /// What a value of the right type has.
    pub(crate) fn typed<T>(&self, key: &str, value: Option<T>) -> Result<T, ScenarioFault>
        ensures { result ≡ typed self.now.place key.now value }
    {
        match value {
            Some(value) => Ok(value),
            None => Err(ScenarioFault::Kind {
                path: self.place.key_path(key),
            }),
        }
    }

    /// What a text or a number that keeps its rule says.
    pub(crate) fn ruled<T>(&self, key: &str, value: Option<T>) -> Result<T, ScenarioFault>
        ensures { result ≡ ruled self.now.place key.now value }
    {
        match value {
            Some(value) => Ok(value),
            None => Err(ScenarioFault::Range {
                path: self.place.key_path(key),
            }),
        }
    }

    /// What a name is, or whom it names.
    pub(crate) fn recognized<T>(&self, key: &str, value: Option<T>) -> Result<T, ScenarioFault>
        ensures { result ≡ recognized self.now.place key.now value }
    {
        match value {
            Some(value) => Ok(value),
            None => Err(ScenarioFault::Name {
                path: self.place.key_path(key),
            }),
        }
    }

    /// The text at a key.
    pub(crate) fn text(&self, key: &str) -> Result<&'a str, ScenarioFault>
        ensures { Gives (λ text. text.now) result (text_at self.now.place key.now (table_view self.now.table.now)) }
    {
        let value = self.value(key)?;
        self.typed(key, value.as_str())
    }

    /// The whole number at a key.
    pub(crate) fn integer(&self, key: &str) -> Result<i64, ScenarioFault>
        ensures { result ≡ integer_at self.now.place key.now (table_view self.now.table.now) }
    {
        let value = self.value(key)?;
        self.typed(key, value.as_integer())
    }

    /// The list at a key.
    pub(crate) fn list(&self, key: &str) -> Result<&'a [Value], ScenarioFault>
        ensures { Gives (λ values. items_view values.now) result (list_at self.now.place key.now (table_view self.now.table.now)) }
    {
        let value = self.value(key)?;
        let values = self.typed(key, value.as_array())?;
        Ok(values.as_slice())
    }
}
