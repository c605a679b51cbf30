use super::*;
use std::fs;
use std::test::Fail;

#[test]
fn source_in_memory_fails_as_chosen(rt: HostRuntime) -> Result<(), Fail> {
    let alloc = rt.alloc();
    let mut source = MemSource::new([1, 2, 3, 4, 5].to_vec(alloc)?, [1].to_vec(alloc)?);
    let mut buf = [0; 3];
    for (answer, faults, left) in [
        (Ok(3), 0, &[4, 5][..]),
        (Err(Failed), 1, &[4, 5]),
        (Ok(2), 1, &[]),
        (Ok(0), 1, &[]),
    ] {
        assert_eq!(rt; source.take(&mut buf), answer);
        assert_eq!(rt; source.faults(), faults);
        assert_eq!(rt; source.bytes(), left);
    }
    assert_eq!(rt; buf, [4, 5, 3]);
    Ok(())
}

#[test]
fn sink_in_memory_fails_as_chosen(rt: HostRuntime) -> Result<(), Fail> {
    let alloc = rt.alloc();
    let mut sink = MemSink::new(alloc, [1].to_vec(alloc)?, 2);
    assert_eq!(rt; write_all(&mut sink, b"hello"), Err(Failed));
    assert_eq!(rt; (sink.bytes(), sink.faults()), (b"he".as_slice(), 1));
    assert_eq!(rt; write_both(&mut sink, b"llo, ", b"world"), Ok(()));
    assert_eq!(rt;
        (sink.bytes(), sink.faults()),
        (b"hello, world".as_slice(), 1)
    );
    Ok(())
}

#[test]
fn folder_in_memory_fails_as_chosen(rt: HostRuntime) -> Result<(), Fail> {
    let alloc = rt.alloc();
    let mut files = Vec::new(alloc);
    for (name, bytes) in [("a.vb", "one"), ("b.vb", "four"), ("a.vb", "two")] {
        let file = (
            String::from_str(alloc, name)?,
            bytes.as_bytes().to_vec(alloc)?,
        );
        files.push(file)?;
    }
    let mut folder = MemFolder::new(files, [1].to_vec(alloc)?);
    let mut into = Vec::new(alloc);
    for (name, max, answer, faults, held) in [
        ("a.vb", 3, Ok(()), 0, "one"),
        ("c.vb", 3, Err(LoadErr::Missing), 0, "one"),
        ("b.vb", 3, Err(LoadErr::TooLong), 0, "one"),
        ("b.vb", 4, Err(LoadErr::Failed), 1, "one"),
        ("b.vb", 4, Ok(()), 1, "onefour"),
    ] {
        assert_eq!(rt; folder.load(name, max, &mut into), answer, "{name}");
        assert_eq!(rt; folder.faults(), faults);
        assert_eq!(rt; into.as_slice(), held.as_bytes());
    }
    Ok(())
}

#[test]
fn folder_of_real_files(rt: HostRuntime) -> Result<(), Fail> {
    let name = "vb_io_folder_test";
    fs::write(&rt, name, "12345")?;
    let mut folder = DirFolder { rt: &rt, faults: 0 };
    let mut into = [48].to_vec(rt.alloc())?;
    for (name, max, answer, faults, held) in [
        (name, 4, Err(LoadErr::TooLong), 0, "0"),
        (name, 5, Ok(()), 0, "012345"),
        ("vb_io_no_such_file", 5, Err(LoadErr::Missing), 0, "012345"),
        (".", 5, Err(LoadErr::Failed), 1, "012345"),
        ("a\0b", 5, Err(LoadErr::Failed), 2, "012345"),
    ] {
        assert_eq!(rt; folder.load(name, max, &mut into), answer, "{name}");
        assert_eq!(rt; folder.faults, faults);
        assert_eq!(rt; into.as_slice(), held.as_bytes());
    }
    fs::remove_file(&rt, name)?;
    Ok(())
}

#[test]
fn reads_what_it_wrote(rt: HostRuntime) -> Result<(), Fail> {
    let name = "vb_io_stream_test";
    let mut sink = WriteSink {
        inner: fs::create(&rt, name)?,
        faults: 0,
    };
    assert_eq!(rt; write_all(&mut sink, b"abc"), Ok(()));
    let mut source = ReadSource {
        inner: fs::open(&rt, name)?,
        faults: 0,
    };
    let mut buf = [0; 2];
    for (answer, held) in [(Ok(2), b"ab"), (Ok(1), b"cb"), (Ok(0), b"cb")] {
        assert_eq!(rt; source.take(&mut buf), answer);
        assert_eq!(rt; &buf, held);
    }
    fs::remove_file(&rt, name)?;
    Ok(())
}

// A folder can be opened and not read, and the full device takes no byte.
#[test]
fn counts_real_faults(rt: HostRuntime) -> Result<(), Fail> {
    let mut source = ReadSource {
        inner: fs::open(&rt, ".")?,
        faults: 0,
    };
    assert_eq!(rt; source.take(&mut [0; 2]), Err(Failed));
    assert_eq!(rt; source.faults, 1);
    let mut sink = WriteSink {
        inner: fs::create(&rt, "/dev/full")?,
        faults: 0,
    };
    assert_eq!(rt; write_all(&mut sink, b"a"), Err(Failed));
    assert_eq!(rt; sink.faults, 1);
    OpenGate.pass(0, 0);
    Ok(())
}
