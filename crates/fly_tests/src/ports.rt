use fly_ports::*;
use fly_types::{Bytes, List, Text};
use std::alloc::{AllocError, Global};
use std::test::Fail;
use std::{fs, io};

fn numbers(alloc: Global, of: &[u64]) -> Result<List<u64>, AllocError> {
    Ok(List::from_vec(Vec::from_slice(alloc, of)?))
}

fn text(alloc: Global, of: &str) -> Result<Text, AllocError> {
    Ok(Text::from_string(String::from_str(alloc, of)?))
}

fn bytes(alloc: Global, of: &[u8]) -> Result<Bytes, AllocError> {
    Ok(Bytes::from_vec(Vec::from_slice(alloc, of)?))
}

fn file(
    alloc: Global,
    path: &str,
    content: Option<&[u8]>,
    room: u64,
) -> Result<MemFile, AllocError> {
    let content = match content {
        Some(content) => Some(bytes(alloc, content)?),
        None => None,
    };
    Ok(MemFile {
        path: text(alloc, path)?,
        content,
        room,
    })
}

fn two_files(alloc: Global, bad_reads: &[u64], bad_appends: &[u64]) -> Result<MemFiles, Fail> {
    let files = vec![in alloc;
        file(alloc, "a", Some(b"abcdef"), 10)?,
        file(alloc, "b", None, 4)?,
    ]?;
    let bad_reads = numbers(alloc, bad_reads)?;
    let bad_appends = numbers(alloc, bad_appends)?;
    Ok(MemFiles::make(alloc, List::from_vec(files), bad_reads, bad_appends)?)
}

fn holds(files: &MemFiles, path: &str, want: &[u8]) -> bool {
    match files.content(path) {
        Some(content) => content == want,
        None => false,
    }
}

#[test]
fn a_read_takes_one_byte_past_its_limit(rt: HostRuntime) -> Result<(), Fail> {
    let alloc = rt.alloc();
    let mut files = two_files(alloc, &[], &[])?;
    assert_eq!(rt; files.read(alloc, "a", 3)?.as_slice(), b"abcd".as_slice());
    assert_eq!(rt; files.read(alloc, "a", 6)?.as_slice(), b"abcdef".as_slice());
    assert_eq!(rt;
        files.read(alloc, "a", u64::MAX)?.as_slice(),
        b"abcdef".as_slice()
    );
    assert_eq!(rt; files.read(alloc, "b", 6).err(), Some(ReadFault::Absent));
    assert_eq!(rt; files.read(alloc, "c", 6).err(), Some(ReadFault::Absent));
    assert_eq!(rt; files.read_faults(), 0);
    Ok(())
}

#[test]
fn a_numbered_read_fails_once(rt: HostRuntime) -> Result<(), Fail> {
    let alloc = rt.alloc();
    let mut files = two_files(alloc, &[2], &[])?;
    assert_eq!(rt; files.read(alloc, "b", 9).err(), Some(ReadFault::Absent));
    assert_eq!(rt; files.read(alloc, "a", 9).err(), Some(ReadFault::Failed));
    assert_eq!(rt; files.read_faults(), 1);
    assert_eq!(rt; files.read(alloc, "a", 9)?.len(), 6);
    Ok(())
}

#[test]
fn appends_make_files_and_end_at_their_room(rt: HostRuntime) -> Result<(), Fail> {
    let alloc = rt.alloc();
    let mut files = two_files(alloc, &[], &[4])?;
    files.append("a", b"gh")?;
    assert!(rt; holds(&files, "a", b"abcdefgh"));
    files.append("b", b"xy")?;
    assert_eq!(rt; files.append("b", b"zzz"), Err(WriteFault::Failed));
    assert!(rt; holds(&files, "b", b"xyzz"));
    assert_eq!(rt; files.append("a", b"i"), Err(WriteFault::Failed));
    assert_eq!(rt; files.append("c", b"i"), Err(WriteFault::Failed));
    assert!(rt; holds(&files, "a", b"abcdefgh"));
    assert!(rt; files.content("c").is_none());
    assert_eq!(rt; files.append_faults(), 3);
    Ok(())
}

#[test]
fn a_sink_fills_up(rt: HostRuntime) -> Result<(), Fail> {
    let alloc = rt.alloc();
    let mut sink = MemSink::make(alloc, 5, numbers(alloc, &[2])?)?;
    sink.put(b"abc")?;
    assert_eq!(rt; sink.put(b"d"), Err(WriteFault::Failed));
    assert_eq!(rt; sink.put(b"def"), Err(WriteFault::Failed));
    assert_eq!(rt; sink.bytes(), b"abcde".as_slice());
    assert_eq!(rt; (sink.asked(), sink.faults()), (7, 2));
    Ok(())
}

#[test]
fn runs_are_answered_by_name(rt: HostRuntime) -> Result<(), Fail> {
    let alloc = rt.alloc();
    let ended = Ended {
        status: Some(0),
        out: bytes(alloc, b"4")?,
    };
    let answers = List::from_vec(vec![in alloc; (text(alloc, "e1/n0@0")?, ended)]?);
    let mut spawner = TableSpawner::make(alloc, answers, numbers(alloc, &[2])?);
    let words = List::from_vec(vec![in alloc; text(alloc, "inc")?]?);
    let name = text(alloc, "e1/n0@0")?;
    let answer = spawner.run(alloc, &name, &words, b"{}")?;
    assert_eq!(rt;
        (answer.status, answer.out.as_slice()),
        (Some(0), b"4".as_slice())
    );
    assert_eq!(rt;
        spawner.run(alloc, &name, &words, b"{}").err(),
        Some(SpawnFault::Failed)
    );
    let other = spawner.run(alloc, &text(alloc, "e1/n1@0")?, &words, b"{}");
    assert_eq!(rt; other.err(), Some(SpawnFault::Failed));
    assert_eq!(rt; (spawner.faults(), spawner.runs().len()), (2, 3));
    if let [first, _, last] = spawner.runs() {
        assert_eq!(rt; first.name.as_str(), "e1/n0@0");
        assert!(rt; first.words == words);
        assert_eq!(rt; first.input.as_slice(), b"{}".as_slice());
        assert!(rt; first.answer == Ok(answer));
        assert_eq!(rt; last.name.as_str(), "e1/n1@0");
        assert!(rt; last.answer == Err(SpawnFault::Failed));
    }
    Ok(())
}

fn handed_over<T: Send>(value: T) -> T {
    value
}

#[test]
fn a_clock_repeats_its_last_answer(rt: HostRuntime) -> Result<(), Fail> {
    let alloc = rt.alloc();
    let mut clock = ListClock::make(List::from_vec(vec![in alloc; 7, -1]?));
    assert_eq!(rt; [clock.now(), clock.now(), clock.now()], [7, -1, -1]);
    assert_eq!(rt; ListClock::make(List::from_vec(vec![in alloc]?)).now(), 0);
    let none = List::from_vec(vec![in alloc]?);
    let mut hand = handed_over(Hand {
        spawner: TableSpawner::make(alloc, none, numbers(alloc, &[])?),
        clock,
        gate: OpenGate,
    });
    hand.gate.pause(Point::AfterRead);
    assert_eq!(rt; hand.clock.now(), -1);
    Ok(())
}

#[test]
fn files_of_the_system_are_read_and_grow(rt: HostRuntime) -> Result<(), Fail> {
    let alloc = rt.alloc();
    let path = format!(in alloc; "/tmp/fly_ports_{}", std::process::id(rt.process()))?;
    let path = path.as_str();
    let mut files = OsFiles::make(&rt);
    assert_eq!(rt; files.read(alloc, path, 9).err(), Some(ReadFault::Absent));
    files.append(path, b"abc")?;
    files.append(path, b"def")?;
    assert_eq!(rt;
        files.read(alloc, path, 9)?.as_slice(),
        b"abcdef".as_slice()
    );
    assert_eq!(rt; files.read(alloc, path, 2)?.as_slice(), b"abc".as_slice());
    fs::remove_file(&rt, path)?;
    assert_eq!(rt; files.read(alloc, "/tmp", 9).err(), Some(ReadFault::Failed));
    assert_eq!(rt; files.append("/tmp", b"x").err(), Some(WriteFault::Failed));
    assert_eq!(rt; (files.read_faults(), files.append_faults()), (1, 1));
    Ok(())
}

#[test]
fn a_writer_is_a_sink(rt: HostRuntime) -> Result<(), Fail> {
    let mut held = [0u8; 4];
    let mut sink = OsSink::make(io::Cursor::new(held.as_mut_slice()));
    sink.put(b"abc")?;
    assert_eq!(rt; sink.put(b"de"), Err(WriteFault::Failed));
    assert_eq!(rt; (sink.faults(), sink.writer().position()), (1, 4));
    Ok(())
}

#[test]
fn copies_are_the_same(rt: HostRuntime) -> Result<(), Fail> {
    let alloc = rt.alloc();
    let copied = file(alloc, "a", Some(b"ab"), 3)?.copy(alloc)?;
    assert_eq!(rt; copied.path.as_str(), "a");
    assert!(rt; copied.content == Some(bytes(alloc, b"ab")?));
    assert_eq!(rt; copied.room, 3);
    let run = Run {
        name: text(alloc, "e1/n0@0")?,
        words: List::from_vec(vec![in alloc; text(alloc, "inc")?]?),
        input: bytes(alloc, b"{}")?,
        answer: Ok(Ended {
            status: Some(0),
            out: bytes(alloc, b"4")?,
        }),
    };
    assert!(rt; run.copy(alloc)? == run);
    Ok(())
}

fn words(alloc: Global, of: &[&str]) -> Result<List<Text>, AllocError> {
    let mut words = Vec::new(alloc);
    for word in of {
        words.push(text(alloc, word)?)?;
    }
    Ok(List::from_vec(words))
}

/// The status and the length of the output of a program with these words and this input.
fn end_of(
    rt: &HostRuntime,
    spawner: &mut impl Spawner,
    of: &[&str],
    input: &[u8],
) -> Result<(Option<i32>, usize), Fail> {
    let alloc = rt.alloc();
    let name = text(alloc, "e1/n0@0")?;
    let ended = spawner.run(alloc, &name, &words(alloc, of)?, input)?;
    Ok((ended.status, ended.out.len()))
}

#[test]
fn programs_of_the_system_run(rt: HostRuntime) -> Result<(), Fail> {
    let alloc = rt.alloc();
    let mut spawner = handed_over(OsSpawner::make(&rt));
    let name = text(alloc, "e1/n0@0")?;
    // No shell reads the words.
    let echo = words(
        alloc,
        &["sh", "-c", "cat; echo \"$1|$2\"", "sh", "a  $b", ""],
    )?;
    let ended = spawner.run(alloc, &name, &echo, b"12\n")?;
    assert_eq!(rt; ended.status, Some(0));
    assert_eq!(rt; ended.out.as_slice(), b"12\na  $b|\n".as_slice());
    assert_eq!(rt;
        end_of(&rt, &mut spawner, &["sh", "-c", "exit 7"], b"")?,
        (Some(7), 0)
    );
    assert_eq!(rt;
        end_of(&rt, &mut spawner, &["sh", "-c", "kill -9 $$"], b"")?,
        (None, 0)
    );
    assert_eq!(rt; spawner.faults(), 0);
    let absent = words(alloc, &["/nowhere/flyte"])?;
    assert_eq!(rt;
        spawner.run(alloc, &name, &absent, b"").err(),
        Some(SpawnFault::Failed)
    );
    let zero = words(alloc, &["cat", "a\0b"])?;
    assert_eq!(rt;
        spawner.run(alloc, &name, &zero, b"").err(),
        Some(SpawnFault::Failed)
    );
    let none = words(alloc, &[])?;
    assert_eq!(rt;
        spawner.run(alloc, &name, &none, b"").err(),
        Some(SpawnFault::Failed)
    );
    assert_eq!(rt; spawner.faults(), 3);
    Ok(())
}

#[test]
fn programs_read_and_write_much_or_nothing(rt: HostRuntime) -> Result<(), Fail> {
    let alloc = rt.alloc();
    let mut spawner = OsSpawner::make(&rt);
    let input = vec![in alloc; 120u8; 1 << 20]?;
    let input = input.as_slice();
    assert_eq!(rt;
        end_of(&rt, &mut spawner, &["cat"], input)?,
        (Some(0), 1 << 20)
    );
    assert_eq!(rt; end_of(&rt, &mut spawner, &["true"], input)?, (Some(0), 0));
    let first_writes = "head -c 1048576 /dev/zero; cat > /dev/null; exit 3";
    assert_eq!(rt;
        end_of(&rt, &mut spawner, &["sh", "-c", first_writes], input)?,
        (Some(3), 1 << 20)
    );
    assert_eq!(rt;
        end_of(
            &rt,
            &mut spawner,
            &["head", "-c", "2097152", "/dev/zero"],
            b""
        )?,
        (Some(0), MAX_OUTPUT)
    );
    assert_eq!(rt; spawner.faults(), 0);
    Ok(())
}

#[test]
fn the_clock_of_the_system_is_past_2020(rt: HostRuntime) -> Result<(), Fail> {
    let mut clock = handed_over(OsClock::make(&rt));
    let first = clock.now();
    // From 2020 to 2200.
    assert!(rt; (1_577_836_800_000..7_258_118_400_000).contains(&first));
    assert!(rt; clock.now() >= first);
    Ok(())
}
