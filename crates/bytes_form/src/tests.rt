// Fields as they stand in files.
use super::*;
use std::test::Fail;

// A cell of a data file: row `r`, family `f`, qualifier `q`, time 1, value `v`.
const CELL: [u8; 19] = [
    0, 1, b'r', 1, b'f', 1, b'q', 0, 0, 0, 0, 0, 0, 0, 1, 1, 0, 1, b'v',
];

#[test]
fn puts_a_cell(rt: HostRuntime) -> Result<(), Fail> {
    let mut out = Vec::new(rt.alloc());
    put_long(&mut out, b"r")?;
    put_short(&mut out, b"f")?;
    put_short(&mut out, b"q")?;
    put_u64(&mut out, 1)?;
    put_flag(&mut out, true)?;
    put_long(&mut out, b"v")?;
    assert_eq!(rt; out.as_slice(), CELL.as_slice());
    Ok(())
}

#[test]
fn puts_the_front_of_a_record(rt: HostRuntime) -> Result<(), Fail> {
    let mut out = Vec::new(rt.alloc());
    put_u8(&mut out, 1)?;
    put_u32(&mut out, 25)?;
    put_u16(&mut out, 0x0102)?;
    put_sized(&mut out, b"ab")?;
    assert_eq!(rt;
        out.as_slice(),
        [1, 0, 0, 0, 25, 1, 2, 0, 0, 0, 2, b'a', b'b'].as_slice()
    );
    Ok(())
}

#[test]
fn takes_a_cell(rt: HostRuntime) -> Result<(), Fail> {
    let row = take_long(&CELL).ok().ok_or("row")?;
    assert_eq!(rt; row.value, b"r".as_slice());
    let family = take_short(row.rest).ok().ok_or("family")?;
    let qualifier = take_short(family.rest).ok().ok_or("qualifier")?;
    assert_eq!(rt; qualifier.value, b"q".as_slice());
    let time = take_u64(qualifier.rest).ok().ok_or("time")?;
    assert_eq!(rt; time.value, 1);
    let is_there = take_flag(time.rest).ok().ok_or("flag")?;
    assert!(rt; is_there.value);
    assert_eq!(rt; is_there.rest, [0, 1, b'v'].as_slice());
    Ok(())
}

#[test]
fn takes_numbers(rt: HostRuntime) -> Result<(), Fail> {
    let bytes = [1, 0, 0, 0, 25, 1, 2, 0, 0, 0, 2, b'a', b'b', b'c'];
    let gate = take_u8(&bytes).ok().ok_or("gate")?;
    let size = take_u32(gate.rest).ok().ok_or("size")?;
    assert_eq!(rt; size.value, 25);
    let two = take_u16(size.rest).ok().ok_or("two")?;
    assert_eq!(rt; two.value, 258);
    let value = take_sized(two.rest).ok().ok_or("value")?;
    assert_eq!(rt; value.value, b"ab".as_slice());
    assert_eq!(rt; value.rest, b"c".as_slice());
    Ok(())
}

#[test]
fn says_what_is_wrong(rt: HostRuntime) -> Result<(), Fail> {
    let short = take_short(&[3, b'a', b'b', b'c', b'd'])
        .ok()
        .ok_or("short")?;
    assert_eq!(rt; short.value, b"abc".as_slice());
    assert_eq!(rt; short.rest, b"d".as_slice());
    assert!(rt; matches!(take_short(&[5, b'a']), Err(Form::Short)));
    assert!(rt; matches!(take_flag(&[2]), Err(Form::Bad)));
    Ok(())
}
