ghost use Rattle.std.specs.Prelude.{◌≡◌, ◌≢◌, ◌≤ℤ◌, ◌≤◌, [], map, length, string_bytes, IfOk, IfSome};
ghost use Rattle.std.specs.List.{list_all};
ghost use Rattle.std.specs.Option.{option_map};
ghost use Rattle.toml.specs.View.{view};
ghost use Rattle.toml_keys.specs.Fault.{ViewMatchesUnless, MatchesUnless, in_turn};
ghost use Rattle.toml_keys.specs.Section.{section_of};
ghost use Rattle.toml_keys.specs.Unknown.{unknown_key};
ghost use Rattle.toml_keys.specs.Keys.{whole, key_in, missing, wrong_kind, out_of_range, has_key, value_under};
ghost use Rattle.toml_keys.specs.Keys.{text_under, number_under, array_under, array_of, text_in, texts_under};
ghost use Rattle.toml_keys.specs.Keys.{tables_under, optional_tables, is_table, is_integer, as_list, in_range};
ghost use Rattle.toml_keys.specs.Keys.{IsInRange, item_section, section_under, section_at};

use crate::fault::{KeyFault, KeyProblem};
use crate::unknown::first_unknown;
use or_geom::{Items, Memory, Name};
use std::alloc::Global;
use std::marker::PhantomData;
use toml::Value;

/// A table of a document, whose keys are read by kind. A fault names a key with what stands before it in the document:
/// `layer.2.gds`, or `wire.width`.
#[derive(Drop)]
pub struct KeyTable<'a, F> {
    alloc: Global,
    path: String,
    table: &'a Value,
    faults: PhantomData<F>,
}

impl<'a, F: KeyFault> KeyTable<'a, F> {
    /// The document itself, before whose keys nothing stands.
    pub fn whole(alloc: Global, table: &'a Value) -> KeyTable<'a, F>
        ensures { section_of F.faults result ≡ whole F.faults (view table.now) }
    {
        KeyTable {
            alloc,
            path: String::new(alloc),
            table,
            faults: PhantomData,
        }
    }

    /// The allocator of what is made for the table.
    pub fn alloc(&self) -> Global {
        self.alloc
    }

    /// The key as a fault names it.
    pub fn key(&self, key: &str) -> Result<Name, Memory>
        ensures { IfOk result (λ name. name ≡ key_in (section_of F.faults self.now) key.now) }
    {
        let path = self.path.as_str();
        let text = format!(in self.alloc; "{path}{key}")?;
        Name::from_bytes(self.alloc, text.as_bytes())
    }

    /// The fault of a key under which nothing stands.
    pub fn missing(&self, key: &str) -> F
        ensures { result ≢ F.faults.memory → result ≡ missing (section_of F.faults self.now) key.now }
    {
        match self.key(key) {
            Ok(key) => F::of_key(KeyProblem::Missing, key),
            Err(Memory) => F::out_of_memory(),
        }
    }

    /// The fault of a key whose value is of another kind.
    pub fn wrong_kind(&self, key: &str) -> F
        ensures { result ≢ F.faults.memory → result ≡ wrong_kind (section_of F.faults self.now) key.now }
    {
        match self.key(key) {
            Ok(key) => F::of_key(KeyProblem::WrongKind, key),
            Err(Memory) => F::out_of_memory(),
        }
    }

    /// The fault of a key whose value isn't allowed.
    pub fn out_of_range(&self, key: &str) -> F
        ensures { result ≢ F.faults.memory → result ≡ out_of_range (section_of F.faults self.now) key.now }
    {
        match self.key(key) {
            Ok(key) => F::of_key(KeyProblem::OutOfRange, key),
            Err(Memory) => F::out_of_memory(),
        }
    }

    /// Whether something stands under the key.
    pub fn has(&self, key: &str) -> bool
        ensures { result ≡ has_key (section_of F.faults self.now) key.now }
    {
        self.table.get(key).is_some()
    }

    /// The least key of the table, by its bytes, that is none of these; nothing where all are.
    pub fn unknown_key(&self, known: &[&str]) -> Result<Option<Name>, Memory>
        ensures { IfOk result (λ key. key ≡ unknown_key (map (λ k. k.now) known.now) (section_of F.faults self.now)) }
    {
        let Some(table) = self.table.as_table() else {
            return Ok(None);
        };
        match first_unknown(table, known) {
            Some(key) => Ok(Some(Name::from_bytes(self.alloc, key.as_bytes())?)),
            None => Ok(None),
        }
    }

    /// The value of a key that has to be there.
    pub fn value(&self, key: &str) -> Result<&'a Value, F>
        ensures { ViewMatchesUnless F.faults.memory (λ v. view v.now) result
            (value_under (section_of F.faults self.now) key.now) }
    {
        match self.table.get(key) {
            Some(value) => Ok(value),
            None => Err(self.missing(key)),
        }
    }

    /// A text.
    pub fn text(&self, key: &str) -> Result<&'a str, F>
        ensures { ViewMatchesUnless F.faults.memory (λ t. t.now) result
            (text_under (section_of F.faults self.now) key.now) }
    {
        let value = self.value(key)?;
        match value.as_str() {
            Some(text) => Ok(text),
            None => Err(self.wrong_kind(key)),
        }
    }

    /// A whole number from `low` to `high`.
    pub fn number(&self, key: &str, low: i64, high: i64) -> Result<i64, F>
        ensures given { MatchesUnless F.faults.memory result
            (number_under low high (section_of F.faults self.now) key.now) }
        ensures range { IfOk result (IsInRange low high) }
    {
        let value = self.value(key)?;
        let Some(number) = value.as_integer() else {
            return Err(self.wrong_kind(key));
        };
        match in_range(number, low, high) {
            Some(number) => Ok(number),
            None => Err(self.out_of_range(key)),
        }
    }

    /// An array of anything.
    pub fn array(&self, key: &str) -> Result<&'a [Value], F>
        ensures { ViewMatchesUnless F.faults.memory (λ t. map view t.now) result
            (array_under (section_of F.faults self.now) key.now) }
    {
        let value = self.value(key)?;
        match list_in(value) {
            Some(items) => Ok(items),
            None => Err(self.wrong_kind(key)),
        }
    }

    /// An array of whole numbers.
    #[tactic(auto, using(crate::proofs::DocumentLaws::of_views))]
    pub fn numbers(&self, key: &str) -> Result<&'a [Value], F>
        ensures { ViewMatchesUnless F.faults.memory (λ t. map view t.now) result
            (array_of is_integer (section_of F.faults self.now) key.now) }
    {
        let items = self.array(key)?;
        if are_numbers(items) {
            return Ok(items);
        }
        Err(self.wrong_kind(key))
    }

    /// An array of `low` to `high` tables.
    #[tactic(auto, using(crate::proofs::DocumentLaws::of_views))]
    pub fn tables(&self, key: &str, low: usize, high: usize) -> Result<&'a [Value], F>
        ensures few { IfOk result (λ t. length t.now ≤ high) }
        ensures given { ViewMatchesUnless F.faults.memory (λ t. map view t.now) result
            (tables_under low high (section_of F.faults self.now) key.now) }
    {
        let items = self.array(key)?;
        if !are_tables(items) {
            return Err(self.wrong_kind(key));
        }
        if items.len() < low || high < items.len() {
            return Err(self.out_of_range(key));
        }
        Ok(items)
    }

    /// An array of at most `high` tables, or no tables where the key isn't there.
    #[tactic(auto, using(crate::proofs::DocumentLaws::of_views))]
    pub fn optional_tables(&self, key: &str, high: usize) -> Result<&'a [Value], F>
        ensures few { IfOk result (λ t. length t.now ≤ high) }
        ensures given { ViewMatchesUnless F.faults.memory (λ t. map view t.now) result
            (optional_tables high (section_of F.faults self.now) key.now) }
    {
        if self.has(key) {
            return self.tables(key, 0, high);
        }
        Ok(&[])
    }

    /// The table at this index of an array of tables that stands under a key.
    pub fn item(
        &self,
        array: &str,
        index: usize,
        table: &'a Value,
    ) -> Result<KeyTable<'a, F>, Memory>
        ensures { IfOk result (λ t. section_of F.faults t ≡ item_section (section_of F.faults self.now) array.now index
            (view table.now)) }
    {
        let path = self.path.as_str();
        let path = format!(in self.alloc; "{path}{array}.{index}.")?;
        Ok(self.at(path, table))
    }

    /// A table that stands under a key.
    pub fn section(&self, key: &str) -> Result<KeyTable<'a, F>, F>
        ensures { ViewMatchesUnless F.faults.memory (section_of F.faults) result
            (section_under (section_of F.faults self.now) key.now) }
    {
        let table = self.value(key)?;
        if !table.is_table() {
            return Err(self.wrong_kind(key));
        }
        self.section_at(key, table).map_err(|_| F::out_of_memory())
    }

    fn section_at(&self, key: &str, table: &'a Value) -> Result<KeyTable<'a, F>, Memory>
        ensures { IfOk result (λ t. section_of F.faults t ≡ section_at (section_of F.faults self.now) key.now
            (view table.now)) }
    {
        let path = self.path.as_str();
        let path = format!(in self.alloc; "{path}{key}.")?;
        Ok(self.at(path, table))
    }

    fn at(&self, path: String, table: &'a Value) -> KeyTable<'a, F>
        ensures { section_of F.faults result
            ≡ record { path = string_bytes path; table = view table.now; faults = F.faults } }
    {
        KeyTable {
            alloc: self.alloc,
            path,
            table,
            faults: PhantomData,
        }
    }

    /// An array of texts.
    pub fn texts(&self, key: &str) -> Result<Items<Name>, F>
        ensures { MatchesUnless F.faults.memory result (texts_under (section_of F.faults self.now) key.now) }
    {
        let items = self.array(key)?;
        self.texts_in(key, items)
    }

    fn texts_in(&self, key: &str, items: &[Value]) -> Result<Items<Name>, F>
        ensures { MatchesUnless F.faults.memory result
            (in_turn (λ _ d. text_in (section_of F.faults self.now) key.now d) [] (map view items.now)) }
    {
        let mut texts = Items::new(self.alloc);
        for item in items {
            let text = self.text_in(key, item)?;
            let Ok(()) = texts.push(text) else {
                return Err(F::out_of_memory());
            };
        }
        Ok(texts)
    }

    fn text_in(&self, key: &str, item: &Value) -> Result<Name, F>
        ensures { MatchesUnless F.faults.memory result
            (text_in (section_of F.faults self.now) key.now (view item.now)) }
    {
        match item.as_str() {
            Some(text) => Name::from_bytes(self.alloc, text.as_bytes()).map_err(
                |_| F::out_of_memory(),
            ),
            None => Err(self.wrong_kind(key)),
        }
    }
}

/// The number, if it lies from `low` to `high`.
pub fn in_range(number: i64, low: i64, high: i64) -> Option<i64>
    ensures given { result ≡ in_range low high number }
    ensures range { IfSome result (IsInRange low high) }
{
    if low <= number && number <= high {
        Some(number)
    } else {
        None
    }
}

/// The items of an array.
fn list_in(value: &Value) -> Option<&[Value]>
    ensures { option_map (λ t. map view t.now) result ≡ as_list (view value.now) }
{
    match value.as_array() {
        Some(items) => Some(items.as_slice()),
        None => None,
    }
}

fn are_tables(items: &[Value]) -> bool
    ensures { result ≡ list_all (λ v. is_table (view v)) items.now }
{
    items.iter().all(|item| item.is_table())
}

fn are_numbers(items: &[Value]) -> bool
    ensures { result ≡ list_all (λ v. is_integer (view v)) items.now }
{
    items.iter().all(|item| item.is_integer())
}
