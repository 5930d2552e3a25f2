// The real host over a real file, and the real source over the standard input of a test.
use crate::os::{Os, OsInput};
use crate::real::{RealHost, RealSource};
use kishu_host::{Failed, Host, Source};
use std::fs;
use std::test::Fail;

const FOLDER: &str = "kishu_cli_test";

const PATH: &str = "kishu_cli_test/store";

#[test]
fn a_real_file(rt: HostRuntime) -> Result<(), Fail> {
    let _ = fs::remove_dir_all(&rt, FOLDER);
    fs::create_dir(&rt, FOLDER)?;
    let mut host = RealHost::new(Os::new(&rt, PATH));
    assert!(rt; !fs::exists(&rt, PATH)?);
    assert!(rt; host.sync().is_ok());
    assert!(rt; host.len() == Ok(0));
    assert!(rt; host.write_at(0, b"abcdef").is_ok());
    assert!(rt; host.write_at(4, b"xyz").is_ok());
    assert!(rt; host.sync().is_ok());
    assert!(rt; host.len() == Ok(7));
    let mut three = [0; 3];
    assert!(rt; host.read_at(3, &mut three) == Ok(3));
    assert!(rt; three == *b"dxy");
    assert!(rt; host.read_at(5, &mut three) == Ok(2));
    assert!(rt; host.read_at(9, &mut three) == Ok(0));
    assert!(rt; fs::read(&rt, PATH)?.as_slice() == b"abcdxyz".as_slice());
    fs::remove_dir_all(&rt, FOLDER)?;
    Ok(())
}

#[test]
fn a_file_that_another_run_has(rt: HostRuntime) -> Result<(), Fail> {
    let _ = fs::remove_dir_all(&rt, "kishu_cli_held");
    fs::create_dir(&rt, "kishu_cli_held")?;
    let mut first = RealHost::new(Os::new(&rt, "kishu_cli_held/store"));
    assert!(rt; first.write_at(0, b"abc").is_ok());
    let mut second = RealHost::new(Os::new(&rt, "kishu_cli_held/store"));
    assert!(rt; second.sync() == Err(Failed));
    assert!(rt; second.write_at(0, b"xyz") == Err(Failed));
    assert!(rt; second.disk_faults() == 2);
    assert!(rt; first.len() == Ok(3));
    drop(first);
    // The second isn't tried again, and a third has the file to itself.
    assert!(rt; second.len() == Err(Failed));
    assert!(rt; second.disk_faults() == 3);
    let mut third = RealHost::new(Os::new(&rt, "kishu_cli_held/store"));
    let mut three = [0; 3];
    assert!(rt; third.read_at(0, &mut three) == Ok(3));
    assert!(rt; three == *b"abc");
    assert!(rt; third.disk_faults() == 0);
    fs::remove_dir_all(&rt, "kishu_cli_held")?;
    Ok(())
}

#[test]
fn the_folder_of_a_new_file(rt: HostRuntime) -> Result<(), Fail> {
    let _ = fs::remove_dir_all(&rt, "kishu_cli_new");
    fs::create_dir(&rt, "kishu_cli_new")?;
    let mut host = RealHost::new(Os::new(&rt, "kishu_cli_new/store"));
    assert!(rt; host.len() == Ok(0));
    // There is no folder to be synced.
    fs::remove_dir_all(&rt, "kishu_cli_new")?;
    assert!(rt; host.sync() == Err(Failed));
    assert!(rt; host.disk_faults() == 1);
    fs::create_dir(&rt, "kishu_cli_new")?;
    assert!(rt; host.sync().is_ok());
    // It is asked for once.
    fs::remove_dir_all(&rt, "kishu_cli_new")?;
    assert!(rt; host.sync().is_ok());
    assert!(rt; host.disk_faults() == 1);
    Ok(())
}

#[test]
fn a_new_file_in_the_working_folder(rt: HostRuntime) -> Result<(), Fail> {
    let _ = fs::remove_file(&rt, "kishu_cli_alone");
    let mut host = RealHost::new(Os::new(&rt, "kishu_cli_alone"));
    assert!(rt; host.sync().is_ok());
    fs::remove_file(&rt, "kishu_cli_alone")?;
    Ok(())
}

#[test]
fn a_file_that_cannot_be_opened(rt: HostRuntime) -> Result<(), Fail> {
    let _ = fs::remove_dir_all(&rt, "kishu_cli_none");
    let mut host = RealHost::new(Os::new(&rt, "kishu_cli_none/store"));
    assert!(rt; host.sync() == Err(Failed));
    // It isn't tried again.
    fs::create_dir(&rt, "kishu_cli_none")?;
    assert!(rt; host.sync() == Err(Failed));
    assert!(rt; host.len() == Err(Failed));
    assert!(rt; host.write_at(0, b"a") == Err(Failed));
    assert!(rt; !fs::exists(&rt, "kishu_cli_none/store")?);
    fs::remove_dir_all(&rt, "kishu_cli_none")?;
    Ok(())
}

#[test]
fn the_standard_input(rt: HostRuntime) -> Result<(), Fail> {
    let mut source = RealSource::new(OsInput::new(&rt));
    let mut some = [7; 4];
    assert!(rt; source.take(&mut some) == Ok(0));
    assert!(rt; some == [7; 4]);
    Ok(())
}
