use crate::tables::{Row, repeated};
use hx_events::Bytes;
use hx_meta::{Meta, MetaError, read, write};
use std::alloc::Global;
use std::test::Fail;

// A base, a type id, and the text that is written of both.
const WRITTEN: &str = r#"none = ={"typeId":""}
1000 5 = ={"etag":"15e5","mtime":1000,"size":5,"typeId":""}
none =a%20"b\ ={"typeId":"a%20\"b\\"}
18446744073709551615 0 = ={"etag":"1n3rsh11f098rn0","mtime":18446744073709551615,"size":0,"typeId":""}"#;

fn is_written(alloc: Global, mut row: Row) -> Result<bool, Fail> {
    let base = row.stat();
    let type_id = row.bytes(alloc)?;
    if !type_id.iter().all(|byte| 32 <= *byte && *byte <= 126) {
        return Ok(false);
    }
    let type_id = Bytes::new(type_id);
    let written = write(alloc, &Meta { base, type_id })?;
    row.has(alloc, &written)
}

// A text, and the base and the type id that are read from it, where it is an object. The base counts only where its three keys agree.
const READ: &str = r#"={"typeId":""} none =
={"etag":"15e5","mtime":1000,"size":5,"typeId":""} 1000 5 =
={"typeId":"a%20\"b\\"} none =a%20"b\
={"etag":"1n3rsh11f098rn0","mtime":18446744073709551615,"size":0,"typeId":""} 18446744073709551615 0 =
={"typeId":"","mtime":1000,"size":5,"etag":"15e5","ctime":1,"orphaned":false} 1000 5 =
=%20{%20"size"%20:%205%20,%20"etag"%20:%20"15\u0065\u0035"%20,%20"mtime"%20:%201000%20}%20 1000 5 =
={"mtime":7,"size":5,"etag":"15e5","mtime":1000} 1000 5 =
={"mtime":1000,"size":6,"etag":"15e5"} none =
={"mtime":1.5,"size":5,"etag":"15e5"} none =
={"mtime":1000.0,"size":5,"etag":"15e5"} none =
={"mtime":1e3,"size":5,"etag":"15e5"} none =
={"mtime":-0,"size":0,"etag":"00"} none =
={"mtime":-1,"size":0,"etag":"00"} none =
={"mtime":18446744073709551616,"size":0,"etag":"00"} none =
={"mtime":"1000","size":5,"etag":"15e5"} none =
={"mtime":1000,"size":5,"etag":15} none =
={"mtime":1000,"size":5} none =
={"mtime":1000,"etag":"15e5"} none =
={"size":5,"etag":"15e5"} none =
={"typeId":"n"} none =n
={"typeId":"\u00e4"} none =%C3%A4
={"typeId":"a","typeId":"b"} none =b
={"typeId":null} none =
={"typeId":["n"]} none =
={} none =
= refused
=[] refused
=null refused
=1 refused
="{}" refused
={ refused
={}%20{} refused
={"a":1,} refused
={"a":1e400} refused
={"a":"%0A"} refused
={"%FF":1} refused
=%EF%BB%BF{} refused"#;

fn is_read(alloc: Global, mut row: Row) -> Result<bool, Fail> {
    let text = row.bytes(alloc)?;
    match read(alloc, &text) {
        Ok(meta) => Ok(meta.base == row.stat() && row.has(alloc, meta.type_id.as_slice())?),
        Err(MetaError::NotMeta) => Ok(row.field() == "refused"),
        Err(MetaError::NoMemory) => Ok(false),
    }
}

// Whether an object is read that has arrays nested so deep.
fn reads_nested(alloc: Global, depth: u64) -> Result<bool, Fail> {
    let mut text = Vec::from_slice(alloc, b"{\"a\":")?;
    text.extend_from_slice(&repeated(alloc, b"[", depth)?)?;
    text.extend_from_slice(&repeated(alloc, b"]", depth)?)?;
    text.push(b'}')?;
    Ok(read(alloc, &text).is_ok())
}

#[test]
fn objects_are_written_and_read_no_deeper_than_their_parser_goes(
    rt: HostRuntime,
) -> Result<(), Fail> {
    for line in WRITTEN.lines() {
        assert!(rt; is_written(rt.alloc(), Row::new(line))?, "{line}");
    }
    for line in READ.lines() {
        assert!(rt; is_read(rt.alloc(), Row::new(line))?, "{line}");
    }
    for depth in [126, 127, 10_000] {
        assert!(rt;
            reads_nested(rt.alloc(), depth)? == (depth == 126),
            "{depth}"
        );
    }
    Ok(())
}
