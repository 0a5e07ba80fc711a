//! Each form in memory and each adapter once, through its trait.
use mx_outside::{
    FileFault, Files, HostFiles, MemFile, MemFiles, MemSink, MemSource, Put, Reading, Sink, Source,
    StdErr, StdOut, Took, Writing,
};
use std::alloc::{AllocError, Global};
use std::fs;
use std::process::Abort;
use std::test::Fail;

/// One call of a source with room for four bytes, whose bytes go to the end of `to`.
fn pull<S: Source>(source: &mut S, to: &mut Vec<u8>) -> Result<Took, AllocError> {
    let mut into = [0u8; 4];
    let took = source.take(&mut into);
    if let Took::Got(count) = took {
        to.extend_from_slice(&into[..count])?;
    }
    Ok(took)
}

fn send<K: Sink>(sink: &mut K, bytes: &[u8]) -> Put {
    sink.put(bytes)
}

/// Asserts what the next calls of a source give.
fn expect_pulls(rt: &impl Abort, source: &mut impl Source, to: &mut Vec<u8>, wanted: &[Took]) {
    for want in wanted {
        let took = pull(source, to).expect(rt, "memory");
        assert_eq!(rt; took, *want);
    }
}

/// The length of a file that is read, or why it isn't.
fn length_of<F: Files>(
    files: &mut F,
    alloc: Global,
    name: &str,
    most: usize,
) -> Result<usize, FileFault> {
    Ok(files.read(alloc, name, most)?.len())
}

#[test]
fn a_memory_source_gives_pieces_and_fails_where_listed(rt: HostRuntime) -> Result<(), Fail> {
    let bytes = Vec::from_slice(rt.alloc(), b"abcdefgh")?;
    let mut source = MemSource::new(bytes, 3, Vec::from_slice(rt.alloc(), &[1u64, 6])?);
    let mut all = Vec::new(rt.alloc());
    let wanted = [
        Took::Got(3),
        Took::Failed,
        Took::Got(3),
        Took::Got(2),
        Took::End,
        Took::End,
        Took::Failed,
    ];
    expect_pulls(&rt, &mut source, &mut all, &wanted);
    assert_eq!(rt; all.as_slice(), b"abcdefgh".as_slice());
    Ok(())
}

#[test]
fn a_memory_sink_keeps_all_but_the_failing_calls(rt: HostRuntime) {
    let failing = Vec::from_slice(rt.alloc(), &[1u64]).expect(&rt, "memory");
    let mut sink = MemSink::new(rt.alloc(), failing);
    assert_eq!(rt; send(&mut sink, b"ab"), Put::Done);
    assert_eq!(rt; send(&mut sink, b"cd"), Put::Failed);
    assert_eq!(rt; send(&mut sink, b"ef"), Put::Done);
    assert_eq!(rt; sink.written(), b"abef".as_slice());
    drop(sink);
}

/// The file `users` of five bytes, of whose reads the fourth fails.
fn one_file(alloc: Global) -> Result<MemFiles, AllocError> {
    let file = MemFile {
        name: String::from_str(alloc, "users")?,
        bytes: Vec::from_slice(alloc, b"12345")?,
    };
    let files = Vec::from_array(alloc, [file])?;
    Ok(MemFiles::new(files, Vec::from_slice(alloc, &[3u64])?))
}

#[test]
fn memory_files_are_read_by_name_within_a_limit(rt: HostRuntime) -> Result<(), Fail> {
    let alloc = rt.alloc();
    let mut files = one_file(alloc)?;
    assert_eq!(rt; length_of(&mut files, alloc, "users", 5), Ok(5));
    assert_eq!(rt;
        length_of(&mut files, alloc, "users", 4),
        Err(FileFault::TooLong)
    );
    assert_eq!(rt;
        length_of(&mut files, alloc, "other", 5),
        Err(FileFault::Failed)
    );
    assert_eq!(rt;
        length_of(&mut files, alloc, "users", 5),
        Err(FileFault::Failed)
    );
    Ok(())
}

#[test]
fn host_files_are_read_by_name_within_a_limit(rt: HostRuntime) -> Result<(), Fail> {
    let name = "mx_outside_host_file";
    fs::write(&rt, name, "12345")?;
    let mut files = HostFiles::new(rt);
    let exact = length_of(&mut files, rt.alloc(), name, 5);
    let short = length_of(&mut files, rt.alloc(), name, 4);
    fs::remove_file(&rt, name)?;
    let gone = length_of(&mut files, rt.alloc(), name, 5);
    assert_eq!(rt; exact, Ok(5));
    assert_eq!(rt; short, Err(FileFault::TooLong));
    assert_eq!(rt; gone, Err(FileFault::Failed));
    Ok(())
}

/// Some bytes as they are when they were read by a reader of std and written by a writer of std.
fn copied(rt: &impl Abort, alloc: Global, bytes: &[u8], wanted: &[Took]) -> Vec<u8> {
    let mut all = Vec::new(alloc);
    expect_pulls(rt, &mut Reading::new(bytes), &mut all, wanted);
    let mut copy = Vec::new(alloc);
    let put = send(&mut Writing::new(&mut copy), all.as_slice());
    assert_eq!(rt; put, Put::Done);
    copy
}

#[test]
fn readers_and_writers_of_std_are_sources_and_sinks(rt: HostRuntime) {
    let wanted = [Took::Got(4), Took::Got(2), Took::End];
    let copy = copied(&rt, rt.alloc(), b"abcdef", &wanted);
    assert_eq!(rt; copy.as_slice(), b"abcdef".as_slice());
    let to_output = send(&mut StdOut::new(rt.stdout()), b"to standard output\n");
    assert_eq!(rt; to_output, Put::Done);
    let to_error = send(&mut StdErr::new(rt.stderr()), b"to standard error\n");
    assert_eq!(rt; to_error, Put::Done);
}
