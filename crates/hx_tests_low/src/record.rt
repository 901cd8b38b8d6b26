use crate::tables::{Row, repeated};
use hx_events::{Backup, Bytes, SlotForm, is_resource};
use hx_record::{RecordError, decode, encode};
use std::alloc::Global;
use std::test::Fail;

// A base, and the record of the resource file:///a and the content hello with it.
const WRITTEN: &str =
    r#"1000 5 =file:///a%20{"etag":"15e5","mtime":1000,"size":5,"typeId":""}%0Ahello
none =%66%69%6c%65%3a%2f%2f%2f%61%20%7b%22%74%79%70%65%49%64%22%3a%22%22%7d%0a%68%65%6c%6c%6f"#;

fn is_written(alloc: Global, mut row: Row) -> Result<bool, Fail> {
    let resource = Row::new("=file:///a").bytes(alloc)?;
    if !is_resource(&resource) {
        return Ok(false);
    }
    let content = Row::new("=hello").bytes(alloc)?;
    let base = row.stat();
    let backup = Backup {
        resource: Bytes::new(resource),
        base,
        content: Bytes::new(content),
    };
    if backup.content.as_slice().len() > 5 {
        return Ok(false);
    }
    let record = encode(alloc, &backup)?;
    row.has(alloc, &record)
}

// The forms that a record is read in, the record, and what is read: the resource, the base and the content, or why none is.
const READ: &str =
    r#"both =file:///a%20{"etag":"15e5","mtime":1000,"size":5,"typeId":""}%0Ahello =file:///a 1000 5 =hello
both =%66%69%6c%65%3a%2f%2f%2f%61%20%7b%22%74%79%70%65%49%64%22%3a%22%22%7d%0a%68%65%6c%6c%6f =file:///a none =hello
both =r%20{}%0A =r none =
both =r%20{"typeId":"","mtime":1000,"size":5,"etag":"15e5","ctime":1,"orphaned":false}%0Ax =r 1000 5 =x
both =r%20{"mtime":1000,"size":6,"etag":"15e5"}%0A =r none =
both =r%20{"mtime":1.5,"size":5,"etag":"15e5"}%0A =r none =
both =r%20%20{}%0A%0A =r none =%0A
one =r%20{"typeId":"n"}%0A =r none =
two =r%20{"typeId":7}%0A =r none =
two =r%20{"typeId":"n"}%0A othertype
both = nolinefeed
both =r%20{} nolinefeed
both =r%0A badresource
both =%20{}%0A badresource
both =%0A badresource
both =r%7F%20{}%0A badresource
both =r%09t%20[]%0A badresource
both =r%20[]%0A notmeta
both =r%20{%0A} notmeta
both =r%20%0A notmeta
both =r%20%FF%0A notmeta"#;

fn name(error: RecordError) -> &'static str {
    match error {
        RecordError::NoLineFeed => "nolinefeed",
        RecordError::BadResource => "badresource",
        RecordError::NotMeta => "notmeta",
        RecordError::OtherType => "othertype",
        RecordError::TooLong => "toolong",
        RecordError::NoMemory => "nomemory",
    }
}

fn is_found(alloc: Global, backup: &Backup, mut row: Row) -> Result<bool, Fail> {
    let resource = row.bytes(alloc)?;
    let base = row.stat();
    let content = row.bytes(alloc)?;
    Ok(
        backup.resource.as_slice() == resource.as_slice()
            && backup.base == base
            && backup.content.as_slice() == content.as_slice(),
    )
}

fn is_read(alloc: Global, form: SlotForm, mut row: Row) -> Result<bool, Fail> {
    match decode(alloc, &row.bytes(alloc)?, form) {
        Ok(backup) => is_found(alloc, &backup, row),
        Err(error) => Ok(row.field() == name(error)),
    }
}

fn is_read_by_forms(alloc: Global, mut row: Row) -> Result<bool, Fail> {
    let forms = row.field();
    if forms != "two" && !is_read(alloc, SlotForm::One, row)? {
        return Ok(false);
    }
    Ok(forms == "one" || is_read(alloc, SlotForm::Two, row)?)
}

#[test]
fn a_backup_is_written_and_read_or_refused_by_its_form(rt: HostRuntime) -> Result<(), Fail> {
    for line in WRITTEN.lines() {
        assert!(rt; is_written(rt.alloc(), Row::new(line))?, "{line}");
    }
    for line in READ.lines() {
        assert!(rt; is_read_by_forms(rt.alloc(), Row::new(line))?, "{line}");
    }
    Ok(())
}

// A form, and a record: its beginning, a count, the byte that is repeated so often, and the end. Then how many bytes of resource and
// content are read, or why none are.
const LONG: &str = r#"two =r%20{} 9995 =%20 =%0A 1 0
two =r%20{} 9996 =%20 =%0A nolinefeed
one = 10000 =r =%20{}%0A nolinefeed
one = 1001 =r =%20{}%0A badresource
one = 1000 =r =%20{}%0A 1000 0
one =r%20{}%0A 262144 =x = 1 262144
one =r%20{}%0A 262145 =x = toolong
two =r%20{}%0A 524288 =x = 1 524288
two =r%20{}%0A 524289 =x = toolong
one =r%20{"typeId":"n"}%0A 524289 =x = toolong
two =r%20{"typeId":"n"}%0A 524289 =x = othertype"#;

fn long(alloc: Global, row: &mut Row) -> Result<Vec<u8>, Fail> {
    let mut record = row.bytes(alloc)?;
    let count = row.number().unwrap_or(0);
    record.extend_from_slice(&repeated(alloc, &row.bytes(alloc)?, count)?)?;
    record.extend_from_slice(&row.bytes(alloc)?)?;
    Ok(record)
}

// Whether these are the first and the last bytes of the record, and as many as the row says.
fn has_lengths(record: &[u8], backup: &Backup, mut row: Row) -> bool {
    let resource = backup.resource.as_slice();
    let content = backup.content.as_slice();
    row.number() == Some(resource.len() as u64)
        && row.number() == Some(content.len() as u64)
        && record.starts_with(resource)
        && record.ends_with(content)
        && backup.base.is_none()
}

fn is_long(alloc: Global, mut row: Row) -> Result<bool, Fail> {
    let form = match row.field() {
        "one" => SlotForm::One,
        _ => SlotForm::Two,
    };
    let record = long(alloc, &mut row)?;
    match decode(alloc, &record, form) {
        Ok(backup) => Ok(has_lengths(&record, &backup, row)),
        Err(error) => Ok(row.field() == name(error)),
    }
}

#[test]
fn a_record_is_read_up_to_its_limits(rt: HostRuntime) -> Result<(), Fail> {
    for line in LONG.lines() {
        assert!(rt; is_long(rt.alloc(), Row::new(line))?, "{line}");
    }
    Ok(())
}
