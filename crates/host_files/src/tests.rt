use crate::FilesHost;
use host_model::{Host, HostFault, Name};
use std::alloc::AllocError;
use std::test::Fail;
use std::{env, fs, process};

fn name(rt: &HostRuntime, text: &str) -> Result<Name, Fail> {
    Ok(Name::new(rt.alloc(), text)?.ok_or("the form of a name")?)
}

fn fresh_directory(rt: &HostRuntime, purpose: &str) -> Result<String, Fail> {
    let parent = env::temp_dir(rt)?;
    let id = process::id(rt.process());
    let dir = format!(in rt.alloc(); "{}/host_files-{purpose}-{id}", parent.display())?;
    fs::create_dir(rt, dir.as_str())?;
    Ok(dir)
}

fn host_at<'a>(rt: &'a HostRuntime, dir: &str) -> Result<FilesHost<&'a HostRuntime>, AllocError> {
    FilesHost::new(rt, rt.alloc(), dir)
}

#[test]
fn reads_what_it_wrote(rt: HostRuntime) -> Result<(), Fail> {
    let dir = fresh_directory(&rt, "bytes")?;
    let journal = name(&rt, "journal")?;
    let mut host = host_at(&rt, dir.as_str())?;
    let mut heard = [0u8; 4];

    host.create(&journal).expect(&rt, "create");
    host.write(&journal, 0, b"abcdef").expect(&rt, "write");
    host.write(&journal, 1, b"X").expect(&rt, "write over");
    host.sync(&journal).expect(&rt, "sync");
    host.read(&journal, 1, &mut heard).expect(&rt, "read");
    assert_eq!(rt; heard, *b"Xcde");
    assert_eq!(rt; host_at(&rt, dir.as_str())?.length(&journal), Ok(Some(6)));
    assert_eq!(rt; host.read(&journal, 3, &mut heard), Err(HostFault::Disk));
    host.create(&journal).expect(&rt, "create anew");
    assert_eq!(rt; host.length(&journal), Ok(Some(0)));
    fs::remove_dir_all(&rt, dir.as_str())?;
    assert_eq!(rt;
        host_at(&rt, dir.as_str())?.length(&journal),
        Err(HostFault::Disk)
    );
    Ok(())
}

#[test]
fn names_and_removes_its_files(rt: HostRuntime) -> Result<(), Fail> {
    let dir = fresh_directory(&rt, "names")?;
    fs::create_dir(&rt, format!(in rt.alloc(); "{dir}/c")?.as_str())?;
    fs::write(&rt, format!(in rt.alloc(); "{dir}/no name")?.as_str(), "")?;
    let (first, second) = (name(&rt, "a")?, name(&rt, "b")?);
    let mut host = host_at(&rt, dir.as_str())?;
    host.create(&second).expect(&rt, "create");
    host.create(&first).expect(&rt, "create");

    let names = host.names(rt.alloc()).expect(&rt, "names");
    assert_eq!(rt; names.len(), 2);
    assert!(rt; names[0] == first && names[1] == second);
    host.remove(&first).expect(&rt, "remove");
    host.remove(&first).expect(&rt, "remove what isn't there");
    assert_eq!(rt; host.length(&first), Ok(None));
    assert_eq!(rt; host.write(&first, 0, b"a"), Err(HostFault::Disk));
    Ok(fs::remove_dir_all(&rt, dir.as_str())?)
}

fn create_many<H: Host>(rt: &HostRuntime, host: &mut H) -> Result<(), Fail> {
    for number in 1..70 {
        let text = format!(in rt.alloc(); "f{number}")?;
        host.create(&name(rt, text.as_str())?)?;
    }
    Ok(())
}

#[test]
fn opens_again_what_it_let_go(rt: HostRuntime) -> Result<(), Fail> {
    let dir = fresh_directory(&rt, "many")?;
    let first = name(&rt, "f0")?;
    let mut host = host_at(&rt, dir.as_str())?;
    host.create(&first).expect(&rt, "create");
    host.write(&first, 0, b"ab").expect(&rt, "write");
    create_many(&rt, &mut host)?;

    let mut heard = [0u8; 1];
    host.read(&first, 1, &mut heard).expect(&rt, "read");
    assert_eq!(rt; heard, *b"b");
    Ok(fs::remove_dir_all(&rt, dir.as_str())?)
}
