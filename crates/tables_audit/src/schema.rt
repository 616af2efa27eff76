//! Whether a database is that of an archive.

ghost use Rattle.std.specs.Prelude.{◌≡◌, ◌↔◌, ◌≤◌, ◌++◌, ◌&&◌, All, ⊤, [], bytes_eq, drop, length, nat_eq, not, IsTrue, IfErr, IfOk};
ghost use Rattle.std.specs.List.{list_all};
ghost use Rattle.sqlite.specs.declared.error.Error.TheVariants.{SqliteFailure};
ghost use Rattle.sqlite.specs.declared.error.ErrorCode.TheVariants.{OutOfMemory};
ghost use Rattle.sqlite.specs.Held.{state};
ghost use Rattle.sqlite_value.specs.declared.value.Value.TheVariants.{Null};
ghost use Rattle.tables.specs.Schema.{archive_schema};
ghost use Rattle.tables.specs.Others.{IsArchiveSchema, is_apart as is_apart_of, is_apart_from as is_apart_from_of, is_by as is_by_of, is_elsewhere as is_elsewhere_of, is_known as is_known_of, is_ours};
ghost use Rattle.tables_meaning.specs.Opening.{IsPlainTable, no_stamps};

use sqlite::{Alter, Connection, Error, MemStore};
use sqlite_items::Items;
use sqlite_schema::code::Terms;
use sqlite_schema::names::same_name;
use sqlite_schema::schema::{Action, Column, Index, Kind, Reference, Schema, Stamps, Table};
use sqlite_value::keys::{Collation, Order};
use sqlite_value::value::{Bytes, Value};
use std::alloc::Global;
use tables::schema::create_tables;

/// A part of a schema, which can be compared with others of its kind.
trait Same {
    ghost is_plain: { Self → Type 0 };

    /// Whether the part is the other one, which is plain.
    fn is_same(&self, other: &Self) -> bool
        requires { is_plain other.now }
        ensures { IsTrue result ↔ (self.now ≡ other.now) };
}

/// Whether the parts are the others, in their order.
fn are_same<T: Same>(all: &[T], others: &[T]) -> bool
    requires { All T.Same.is_plain others.now }
    ensures { IsTrue result ↔ (all.now ≡ others.now) }
{
    if all.len() != others.len() {
        return false;
    }
    for (i, x) in all.iter().enumerate() {
        if !x.is_same(&others[i]) {
            return false;
        }
    }
    true
}

impl Same for bool {
    ghost is_plain = { λ _. ⊤ };

    fn is_same(&self, other: &bool) -> bool {
        *self == *other
    }
}

impl Same for u32 {
    ghost is_plain = { λ _. ⊤ };

    fn is_same(&self, other: &u32) -> bool {
        *self == *other
    }
}

impl Same for usize {
    ghost is_plain = { λ _. ⊤ };

    fn is_same(&self, other: &usize) -> bool {
        *self == *other
    }
}

impl Same for Option<usize> {
    ghost is_plain = { λ _. ⊤ };

    fn is_same(&self, other: &Option<usize>) -> bool {
        *self == *other
    }
}

impl Same for Kind {
    ghost is_plain = { λ _. ⊤ };

    fn is_same(&self, other: &Kind) -> bool {
        *self == *other
    }
}

impl Same for Action {
    ghost is_plain = { λ _. ⊤ };

    fn is_same(&self, other: &Action) -> bool {
        *self == *other
    }
}

impl Same for Collation {
    ghost is_plain = { λ _. ⊤ };

    fn is_same(&self, other: &Collation) -> bool {
        *self == *other
    }
}

impl Same for Order {
    ghost is_plain = { λ _. ⊤ };

    fn is_same(&self, other: &Order) -> bool {
        *self == *other
    }
}

impl Same for Bytes {
    ghost is_plain = { λ _. ⊤ };

    fn is_same(&self, other: &Bytes) -> bool {
        self.as_slice() == other.as_slice()
    }
}

impl<T: Same> Same for Items<T> {
    ghost is_plain = { All T.Same.is_plain };

    fn is_same(&self, other: &Items<T>) -> bool {
        are_same(self.as_slice(), other.as_slice())
    }
}

/// Whether the value is NULL.
fn is_null(value: &Value) -> bool
    ensures { IsTrue result ↔ (value.now ≡ Null) }
{
    matches!(value, Value::Null)
}

/// A plain column has NULL for its default.
impl Same for Column {
    ghost is_plain = { λ c. c.default ≡ Null };

    fn is_same(&self, other: &Column) -> bool {
        let name = self.name.is_same(&other.name);
        let kind = self.kind.is_same(&other.kind);
        let strict = self.is_strict.is_same(&other.is_strict);
        let not_null = self.not_null.is_same(&other.not_null);
        let default = is_null(&self.default);
        let collation = self.collation.is_same(&other.collation);
        name && kind && strict && not_null && default && collation
    }
}

impl Same for Reference {
    ghost is_plain = { λ _. ⊤ };

    fn is_same(&self, other: &Reference) -> bool {
        let columns = self.columns.is_same(&other.columns);
        let parent = self.parent.is_same(&other.parent);
        let parent_columns = self.parent_columns.is_same(&other.parent_columns);
        let on_delete = self.on_delete.is_same(&other.on_delete);
        let on_update = self.on_update.is_same(&other.on_update);
        let deferred = self.is_deferred.is_same(&other.is_deferred);
        columns && parent && parent_columns && on_delete && on_update && deferred
    }
}

/// Whether there is no expression.
fn is_none(terms: &Terms) -> bool
    ensures { IsTrue result ↔ (terms.now ≡ []) }
{
    terms.roots.is_empty()
}

/// Whether no default reads the time.
fn has_none(stamps: &Stamps) -> bool
    ensures { IsTrue result ↔ (stamps.now ≡ no_stamps) }
{
    let places = stamps.places.is_empty();
    let terms = is_none(&stamps.terms);
    let formats = stamps.formats.is_empty();
    places && terms && formats
}

/// What the columns of a table are, and its keys.
fn has_same_keys(table: &Table, other: &Table) -> bool
    requires { All (λ c. c.default ≡ Null) other.now.columns }
    ensures { IsTrue result ↔ ((table.now.columns ≡ other.now.columns) × (table.now.key ≡ other.now.key) × (table.now.primary ≡ other.now.primary) × (table.now.uniques ≡ other.now.uniques) × (table.now.orders ≡ other.now.orders)) }
{
    let columns = table.columns.is_same(&other.columns);
    let key = table.key.is_same(&other.key);
    let primary = table.primary.is_same(&other.primary);
    let uniques = table.uniques.is_same(&other.uniques);
    let orders = table.orders.is_same(&other.orders);
    columns && key && primary && uniques && orders
}

/// Whether the rest of a table is that of another, which has no check and whose defaults are literals.
fn has_same_rules(table: &Table, other: &Table) -> bool
    requires checks { other.now.checks ≡ [] }
    requires stamps { other.now.stamps ≡ no_stamps }
    ensures { IsTrue result ↔ ((table.now.checks ≡ other.now.checks) × (table.now.references ≡ other.now.references) × (table.now.computed ≡ other.now.computed) × (table.now.stamps ≡ other.now.stamps) × (table.now.is_counted ≡ other.now.is_counted)) }
{
    let checks = is_none(&table.checks);
    let references = table.references.is_same(&other.references);
    let computed = table.computed.is_same(&other.computed);
    let stamps = has_none(&table.stamps);
    let counted = table.is_counted.is_same(&other.is_counted);
    checks && references && computed && stamps && counted
}

/// A plain table has plain columns, no check, and no default that is computed at a write.
impl Same for Table {
    ghost is_plain = { IsPlainTable };

    fn is_same(&self, other: &Table) -> bool {
        let name = self.name.is_same(&other.name);
        let tree = self.tree.is_same(&other.tree);
        let keys = has_same_keys(self, other);
        let rules = has_same_rules(self, other);
        name && tree && keys && rules
    }
}

impl Same for Index {
    ghost is_plain = { λ _. ⊤ };

    fn is_same(&self, other: &Index) -> bool {
        let name = self.name.is_same(&other.name);
        let tree = self.tree.is_same(&other.tree);
        let table = self.table.is_same(&other.table);
        let columns = self.columns.is_same(&other.columns);
        let order = self.order.is_same(&other.order);
        let unique = self.is_unique.is_same(&other.is_unique);
        name && tree && table && columns && order && unique
    }
}

/// Whether the first parts are the others, in their order.
fn begin_with<T: Same>(all: &[T], others: &[T]) -> bool
    requires { All T.Same.is_plain others.now }
    ensures { IsTrue result ↔ (all.now ≡ others.now ++ drop (length others.now) all.now) }
{
    if all.len() < others.len() {
        return false;
    }
    let (first, _) = all.split_at(others.len());
    are_same(first, others)
}

/// Whether a table of an archive has the name.
#[tactic(auto, unfolding(tables::specs::Others::is_ours))]
fn has_name(archive: &[Table], name: &Bytes) -> bool
    requires { archive.now ≡ archive_schema.tables }
    ensures { result ≡ is_ours name.now }
{
    archive
        .iter()
        .any(|table| same_name(table.name.as_slice(), name.as_slice()))
}

/// Whether the reference is to no table of an archive.
fn is_elsewhere(archive: &[Table], reference: &Reference) -> bool
    requires { archive.now ≡ archive_schema.tables }
    ensures { result ≡ is_elsewhere_of reference.now }
{
    !has_name(archive, &reference.parent)
}

/// Whether the references are to no table of an archive.
fn refer_elsewhere(archive: &[Table], references: &[Reference]) -> bool
    requires { archive.now ≡ archive_schema.tables }
    ensures { result ≡ list_all is_elsewhere_of references.now }
{
    references
        .iter()
        .all(|reference| is_elsewhere(archive, reference))
}

/// The last tree of an archive.
const LAST_TREE: u32 = 22;

/// Whether the table comes after those of an archive, and refers to none of them.
#[tactic(auto, unfolding(tables::specs::Others::is_apart))]
fn is_apart(archive: &[Table], table: &Table) -> bool
    requires { archive.now ≡ archive_schema.tables }
    ensures { result ≡ is_apart_of table.now }
{
    let behind = table.tree > LAST_TREE;
    let elsewhere = refer_elsewhere(archive, table.references.as_slice());
    behind && elsewhere
}

/// Whether the tables after those of an archive refer to none of these.
fn are_tables_apart(archive: &[Table], tables: &[Table]) -> bool
    requires { archive.now ≡ archive_schema.tables }
    ensures { result ≡ list_all is_apart_of tables.now }
{
    tables.iter().all(|table| is_apart(archive, table))
}

/// Whether these columns are only this one.
fn is_by(columns: &[usize], column: usize) -> bool
    ensures { result ≡ is_by_of columns.now column }
{
    columns.len() == 1 && columns[0] == column
}

/// Whether the index has this name, this table and only this column, and takes any rows.
fn is_like(index: &Index, name: &str, table: u32, column: usize) -> bool
    ensures { result ≡ (bytes_eq index.now.name name.now && (nat_eq index.now.table table && (is_by_of index.now.columns column && not index.now.is_unique))) }
{
    let named = index.name.as_slice() == name.as_bytes();
    let placed = index.table == table;
    let by = is_by(index.columns.as_slice(), column);
    let takes_any = !index.is_unique;
    named && placed && by && takes_any
}

/// Whether the index is one of the two by which the arrivals and the files of a body are found.
#[tactic(auto, unfolding(tables::specs::Others::is_known))]
fn is_known(index: &Index) -> bool
    ensures { result ≡ is_known_of index.now }
{
    let of_arrivals = is_like(index, "arrivals_by_body", 5, 3);
    let of_files = is_like(index, "files_by_body", 17, 2);
    of_arrivals || of_files
}

/// Whether the index is on no table of an archive, or is one of the two of bodies.
#[tactic(auto, unfolding(tables::specs::Others::is_apart_from))]
fn is_apart_from(index: &Index) -> bool
    ensures { result ≡ is_apart_from_of index.now }
{
    let behind = index.table > LAST_TREE;
    let known = is_known(index);
    behind || known
}

/// Whether the indexes, except the two of bodies, are on no table of an archive.
fn are_indexes_apart(indexes: &[Index]) -> bool
    ensures { result ≡ list_all is_apart_from_of indexes.now }
{
    indexes.iter().all(is_apart_from)
}

/// The parts after the first `count`.
fn behind<T>(all: &[T], count: usize) -> &[T]
    requires { count ≤ length all.now }
    ensures { result.now ≡ drop count all.now }
{
    let (_, rest) = all.split_at(count);
    rest
}

/// Whether the schema has the tables of an archive first, with their indexes, and then others that leave them alone.
fn has_tables_first(archive: &Schema, schema: &Schema) -> bool
    requires { archive.now ≡ archive_schema }
    ensures { IsTrue result ↔ IsArchiveSchema schema.now }
{
    let tables = schema.tables.as_slice();
    let indexes = schema.indexes.as_slice();
    let ours = archive.tables.as_slice();
    let our_indexes = archive.indexes.as_slice();
    if !begin_with(tables, ours) || !begin_with(indexes, our_indexes) {
        return false;
    }
    let others = behind(tables, ours.len());
    let other_indexes = behind(indexes, our_indexes.len());
    let tables_apart = are_tables_apart(ours, others);
    let indexes_apart = are_indexes_apart(other_indexes);
    tables_apart && indexes_apart
}

/// A database in memory with the tables of an archive.
fn with_tables(alloc: Global) -> Result<Connection<MemStore>, Error>
    ensures ok { IfOk result (λ conn. conn.schema ≡ archive_schema) }
    ensures err { IfErr result (λ e. e ≡ SqliteFailure OutOfMemory) }
{
    let mut conn = Connection::open_in_memory(alloc)?;
    let mut tx = conn.transaction();
    create_tables(&mut tx)?;
    tx.commit()?;
    Ok(conn)
}

/// Whether the database has the tables of an archive, and after them at most others that leave them alone. The database is not
/// read, so an error here comes from want of memory alone.
pub fn is_archive_schema<S: Alter>(alloc: Global, conn: &Connection<S>) -> Result<bool, Error>
    ensures ok { IfOk result (λ answer. IsTrue answer ↔ IsArchiveSchema (state S.Store conn.now).now.schema) }
    ensures err { IfErr result (λ e. e ≡ SqliteFailure OutOfMemory) }
{
    let archive = with_tables(alloc)?;
    Ok(has_tables_first(archive.schema(), conn.schema()))
}
