// Logs over a host in memory, and after a crash.
use host_model::{Host, HostFault, Name, Stop};
use log_files::{create_log, log_file, mutations, read_sorted, write_sorted};
use memory_host::{MemoryHost, Pick};
use metadata_schema::Mutation;
use row_keys::LogName;
use std::alloc::{AllocError, Global};
use std::test::Fail;

// The log of the insert of `v` into row `r`, family `f` and qualifier `q` of table 1, at time 1.
const ONE_INSERT: [u8; 31] = [
    1, 0, 0, 0, 0x19, 1, 0x31, 0, 1, 0x72, 0, 0, 0, 0, 0, 0, 0, 1, 0, 0, 0, 1, 1, 0x66, 1, 0x71, 1,
    0, 1, 0x76, 0,
];

fn session_log(alloc: Global) -> Result<LogName, Fail> {
    Ok(LogName::new(alloc, b"log-0000000000000001")?.ok_or("no name")?)
}

// A log of three records like that one, of these rows and values, of which the third has this gate.
fn three_records(alloc: Global, rows: [(u8, u8); 3], gate: u8) -> Result<Vec<u8>, AllocError> {
    let mut file = Vec::new(alloc);
    for (number, (row, value)) in rows.iter().enumerate() {
        let mut bytes = ONE_INSERT;
        bytes[0] = if number == 2 { gate } else { 1 };
        bytes[9] = *row;
        bytes[29] = *value;
        file.extend_from_slice(&bytes[..30])?;
    }
    file.push(0)?;
    Ok(file)
}

fn write_front<H: Host>(host: &mut H, name: &Name, bytes: &[u8]) -> Result<(), HostFault> {
    match host.length(name)? {
        Some(_) => host.write(name, 0, bytes),
        None => Ok(()),
    }
}

// A disk on which the file of the log has these bytes.
fn disk_of(alloc: Global, bytes: &[u8]) -> Result<MemoryHost, Fail> {
    let mut host = MemoryHost::new(alloc, b"", &[], None)?;
    let name = log_file(alloc, &session_log(alloc)?)?;
    host.create(&name)?;
    write_front(&mut host, &name, bytes)?;
    Ok(host)
}

fn count_of(alloc: Global, file: &[u8]) -> Result<usize, Fail> {
    let mut host = disk_of(alloc, file)?;
    Ok(mutations(alloc, &mut host, &session_log(alloc)?)?.len())
}

// The row and the value of each mutation.
fn rows_of(alloc: Global, mutations: &[Mutation]) -> Result<Vec<u8>, AllocError> {
    let mut rows = Vec::new(alloc);
    for mutation in mutations {
        rows.extend_from_slice(mutation.row.as_bytes())?;
        for update in mutation.updates.as_slice() {
            if let Some(value) = &update.value {
                rows.extend_from_slice(value.as_bytes())?;
            }
        }
    }
    Ok(rows)
}

#[test]
fn one_insert_has_31_bytes(rt: HostRuntime) -> Result<(), Fail> {
    let log = session_log(rt.alloc())?;
    let mut host = MemoryHost::new(rt.alloc(), b"", &[], None)?;
    let mut open = create_log(rt.alloc(), &mut host, &log)?;
    open.append(&mut host, &ONE_INSERT[5..30])?;
    let size = host.length(&log_file(rt.alloc(), &log)?)?;
    assert_eq!(rt; size, Some(31));
    let mut host = host.after_crash(b"", &[], None, Pick::Lost)?;
    assert_eq!(rt; mutations(rt.alloc(), &mut host, &log)?.len(), 1);
    Ok(())
}

#[test]
fn one_insert_is_read(rt: HostRuntime) -> Result<(), Fail> {
    let mut host = disk_of(rt.alloc(), &ONE_INSERT)?;
    let all = mutations(rt.alloc(), &mut host, &session_log(rt.alloc())?)?;
    assert_eq!(rt; all.len(), 1);
    assert_eq!(rt; all[0].time, 1);
    assert_eq!(rt; rows_of(rt.alloc(), &all)?.as_slice(), b"rv".as_slice());
    Ok(())
}

#[test]
fn a_log_cut_short_is_damaged(rt: HostRuntime) -> Result<(), Fail> {
    let log = session_log(rt.alloc())?;
    let mut host = disk_of(rt.alloc(), &ONE_INSERT[..30])?;
    match mutations(rt.alloc(), &mut host, &log) {
        Err(Stop::Damaged(name)) => assert_eq!(rt; name, log_file(rt.alloc(), &log)?),
        _ => return Err(Fail::from("not damaged")),
    }
    Ok(())
}

#[test]
fn a_closed_gate_ends_the_log(rt: HostRuntime) -> Result<(), Fail> {
    let rows = [(b'a', b'x'), (b'b', b'x'), (b'c', b'x')];
    for (gate, count) in [(1, 3), (0, 2), (7, 2)] {
        let file = three_records(rt.alloc(), rows, gate)?;
        assert_eq!(rt; count_of(rt.alloc(), &file)?, count);
    }
    Ok(())
}

#[test]
fn mutations_are_sorted(rt: HostRuntime) -> Result<(), Fail> {
    let log = session_log(rt.alloc())?;
    let rows = [(b'b', b'x'), (b'a', b'y'), (b'a', b'x')];
    let mut host = disk_of(rt.alloc(), &three_records(rt.alloc(), rows, 1)?)?;
    let all = mutations(rt.alloc(), &mut host, &log)?;
    write_sorted(rt.alloc(), &mut host, &log, &all)?;
    let mut host = host.after_crash(b"", &[], None, Pick::Lost)?;
    let sorted = read_sorted(rt.alloc(), &mut host, &log)?;
    assert_eq!(rt;
        rows_of(rt.alloc(), &sorted)?.as_slice(),
        b"ayaxbx".as_slice()
    );
    Ok(())
}
