// The values of a row that a query gives, as those of the tables, and back.
ghost use Rattle.std.specs.Prelude.{◌≡◌, pos, IfOk};
ghost use Rattle.sqlite_value.specs.Order.{column};
ghost use Rattle.sqlite_value.specs.Value.{owned};
ghost use Rattle.sqlite_value.specs.declared.value.Value.TheVariants.{Int, Text as TextValue, Blob as BlobValue};
ghost use Rattle.desk_sqlite.specs.Columns.{end_day, number, number_or_null};

use desk_tables::{Day, Digest, Name};
use sqlite::types::{Type, ValueRef};
use sqlite::{Error, Row};
use std::alloc::Global;
use text_ground::text::Text;

// ---- read

// The bytes of a TEXT, which need not be UTF-8.
fn text_bytes(row: &Row, at: usize) -> Result<&[u8], Error>
    ensures { IfOk result (λ bytes. column row.now at ≡ TextValue bytes.now) }
{
    match row.get_ref(at)? {
        ValueRef::Text(bytes) => Ok(bytes),
        other => Err(Error::InvalidColumnType(at, Type::of(other))),
    }
}

// The bytes of a BLOB.
fn blob_bytes(row: &Row, at: usize) -> Result<&[u8], Error>
    ensures { IfOk result (λ bytes. column row.now at ≡ BlobValue bytes.now) }
{
    match row.get_ref(at)? {
        ValueRef::Blob(bytes) => Ok(bytes),
        other => Err(Error::InvalidColumnType(at, Type::of(other))),
    }
}

pub(crate) fn text_at(alloc: Global, row: &Row, at: usize) -> Result<Text, Error>
    ensures { IfOk result (λ text. column row.now at ≡ TextValue text) }
{
    let bytes = text_bytes(row, at)?;
    Ok(Text::from_bytes(alloc, bytes)?)
}

pub(crate) fn blob_at(alloc: Global, row: &Row, at: usize) -> Result<Text, Error>
    ensures { IfOk result (λ text. column row.now at ≡ BlobValue text) }
{
    let bytes = blob_bytes(row, at)?;
    Ok(Text::from_bytes(alloc, bytes)?)
}

pub(crate) fn name_at(row: &Row, at: usize) -> Result<Name, Error>
    ensures { IfOk result (λ name. column row.now at ≡ TextValue name) }
{
    match Name::new(text_bytes(row, at)?) {
        Some(name) => Ok(name),
        None => Err(Error::InvalidColumnType(at, Type::Text)),
    }
}

pub(crate) fn digest_at(row: &Row, at: usize) -> Result<Digest, Error>
    ensures { IfOk result (λ digest. column row.now at ≡ BlobValue digest) }
{
    let bytes = blob_bytes(row, at)?;
    if bytes.len() != 32 {
        return Err(Error::InvalidColumnType(at, Type::Blob));
    }
    let mut digest = [0; 32];
    digest.copy_from_slice(bytes);
    Ok(digest)
}

pub(crate) fn number_at(row: &Row, at: usize) -> Result<u32, Error>
    ensures { IfOk result (λ n. column row.now at ≡ number n) }
{
    row.get(at)
}

pub(crate) fn status_at(row: &Row, at: usize) -> Result<u16, Error>
    ensures { IfOk result (λ status. column row.now at ≡ number status) }
{
    match u16::try_from(number_at(row, at)?) {
        Ok(status) => Ok(status),
        Err(_) => Err(Error::IntegralValueOutOfRange(at)),
    }
}

// The day that is so many days after 1970-01-01.
fn day_of(count: i32, at: usize) -> Result<Day, Error>
    ensures { IfOk result (λ day. day ≡ count) }
{
    match Day::new(count) {
        Some(day) => Ok(day),
        None => Err(Error::IntegralValueOutOfRange(at)),
    }
}

pub(crate) fn day_at(row: &Row, at: usize) -> Result<Day, Error>
    ensures { IfOk result (λ day. column row.now at ≡ Int day) }
{
    day_of(row.get(at)?, at)
}

// The day, or none where there is NULL.
pub(crate) fn end_at(row: &Row, at: usize) -> Result<Option<Day>, Error>
    ensures { IfOk result (λ ended. column row.now at ≡ end_day ended) }
{
    let number: Option<i32> = row.get(at)?;
    match number {
        Some(number) => Ok(Some(day_of(number, at)?)),
        None => Ok(None),
    }
}

// The number, which fits into a byte.
fn small(number: u32, at: usize) -> Result<u8, Error>
    ensures { IfOk result (λ n. n ≡ number) }
{
    match u8::try_from(number) {
        Ok(number) => Ok(number),
        Err(_) => Err(Error::IntegralValueOutOfRange(at)),
    }
}

// The edition of a sign-off, or none where there is NULL.
pub(crate) fn edition_at(row: &Row, at: usize) -> Result<Option<u8>, Error>
    ensures { IfOk result (λ edition. column row.now at ≡ number_or_null edition) }
{
    let number: Option<u32> = row.get(at)?;
    match number {
        Some(number) => Ok(Some(small(number, at)?)),
        None => Ok(None),
    }
}

// ---- written

pub(crate) fn text_value(text: &Text) -> ValueRef<'_>
    ensures { owned result ≡ TextValue text.now }
{
    ValueRef::Text(text.as_bytes())
}

pub(crate) fn blob_value(text: &Text) -> ValueRef<'_>
    ensures { owned result ≡ BlobValue text.now }
{
    ValueRef::Blob(text.as_bytes())
}

pub(crate) fn name_value(name: &Name) -> ValueRef<'_>
    ensures { owned result ≡ TextValue name.now }
{
    ValueRef::Text(name.as_bytes())
}

pub(crate) fn digest_value(digest: &Digest) -> ValueRef<'_>
    ensures { owned result ≡ BlobValue digest.now }
{
    ValueRef::Blob(digest.as_slice())
}

pub(crate) fn number_value<'v>(n: u32) -> ValueRef<'v>
    ensures { owned result ≡ number n }
{
    ValueRef::Int(i64::from(n))
}

pub(crate) fn day_value<'v>(day: Day) -> ValueRef<'v>
    ensures { owned result ≡ Int day }
{
    ValueRef::Int(i64::from(day.number()))
}

pub(crate) fn end_value<'v>(ended: Option<Day>) -> ValueRef<'v>
    ensures { owned result ≡ end_day ended }
{
    match ended {
        Some(day) => day_value(day),
        None => ValueRef::Null,
    }
}

pub(crate) fn edition_value<'v>(edition: Option<u8>) -> ValueRef<'v>
    ensures { owned result ≡ number_or_null edition }
{
    match edition {
        Some(edition) => number_value(u32::from(edition)),
        None => ValueRef::Null,
    }
}
