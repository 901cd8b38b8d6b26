use crate::tables::Row;
use hx_events::{Bytes, PairFound, Side};
use hx_restore::restored;
use hx_slots::RawPair;
use std::alloc::Global;
use std::test::Fail;

// Slot files by name: none, two backups of one resource with the stamps 5 and 6, one with the stamp 5 and another content, one of another
// resource, and the same behind a closed gate; a body that is no record, a gate and nothing behind it, a header with a length that no body
// has, and a backup of another program in the form in which the type id counts.
const FILES: &str = r#"nothing =
hello =%01%00%00%00%00%00%00%00%05%00%00%00%1Dfile:///a%20{"typeId":""}%0Ahello
world =%01%00%00%00%00%00%00%00%06%00%00%00%1Dfile:///a%20{"typeId":""}%0Aworld
aslate =%01%00%00%00%00%00%00%00%05%00%00%00%1Dfile:///a%20{"typeId":""}%0Aworld
other =%01%00%00%00%00%00%00%00%07%00%00%00%1Dfile:///b%20{"typeId":""}%0Aother
closed =%02%00%00%00%00%00%00%00%07%00%00%00%1Dfile:///b%20{"typeId":""}%0Aother
spoilt =%01%00%00%00%00%00%00%00%09%00%00%00%03abc
gate =%01
toolong =%01%00%00%00%00%00%00%00%00%FF%FF%FF%FF
foreign =%01%00%00%00%00%00%00%00%01%FF%FF%FF%FF%00%00%00%11r%20{"typeId":"n"}%0A"#;

// The files of each pair of one vault, side A first, and what is found of it.
const VAULT: &str = "\
hello nothing a =hello
hello nothing twin 0
spoilt nothing damaged
closed nothing empty
nothing other b =other
other spoilt twin 4
gate toolong empty
foreign nothing damaged";

// The same for vaults of one pair each: the side of the larger stamp counts, and side A at a tie.
const PAIRS: &str = "\
hello world b =world
world hello a =world
hello hello a =hello
hello aslate a =hello
aslate hello a =world
hello spoilt a =hello
spoilt hello b =hello
other world a =other";

fn file(alloc: Global, name: &str) -> Result<Bytes, Fail> {
    for line in FILES.lines() {
        let mut row = Row::new(line);
        if row.field() == name {
            return Ok(Bytes::new(row.bytes(alloc)?));
        }
    }
    Err(Fail::new(format_args!("no file {name}")))
}

fn raw(alloc: Global, mut row: Row) -> Result<RawPair, Fail> {
    let a = file(alloc, row.field())?;
    let b = file(alloc, row.field())?;
    Ok(RawPair { a, b })
}

fn is_found(alloc: Global, found: &PairFound, mut row: Row) -> Result<bool, Fail> {
    let _ = (row.field(), row.field());
    let word = row.field();
    match found {
        PairFound::Empty => Ok(word == "empty"),
        PairFound::Damaged => Ok(word == "damaged"),
        PairFound::Twin(earlier) => {
            Ok(word == "twin" && row.number() == Some(u64::from(earlier.number())))
        }
        PairFound::Found(backup, side) => {
            let wanted = match side {
                Side::A => "a",
                Side::B => "b",
            };
            Ok(word == wanted && row.has(alloc, backup.content.as_slice())?)
        }
    }
}

fn raws(alloc: Global, lines: &str) -> Result<Vec<RawPair>, Fail> {
    let mut pairs = Vec::new(alloc);
    for line in lines.lines() {
        pairs.push(raw(alloc, Row::new(line))?)?;
    }
    Ok(pairs)
}

fn are_found(alloc: Global, found: &[PairFound], lines: &str) -> Result<bool, Fail> {
    for (place, line) in lines.lines().enumerate() {
        let Some(found) = found.get(place) else {
            return Ok(false);
        };
        if !is_found(alloc, found, Row::new(line))? {
            return Ok(false);
        }
    }
    Ok(true)
}

// Whether the pairs of these lines, which are one vault, are found as they say.
fn is_restored(alloc: Global, lines: &str) -> Result<bool, Fail> {
    let pairs = raws(alloc, lines)?;
    if pairs.len() > 64 {
        return Ok(false);
    }
    let found = restored(alloc, &pairs)?;
    Ok(found.len() == pairs.len() && are_found(alloc, &found, lines)?)
}

#[test]
fn a_pair_counts_by_its_newer_side_and_a_resource_by_its_first_pair(
    rt: HostRuntime,
) -> Result<(), Fail> {
    assert!(rt; is_restored(rt.alloc(), VAULT)?);
    for line in PAIRS.lines() {
        assert!(rt; is_restored(rt.alloc(), line)?, "{line}");
    }
    Ok(())
}
