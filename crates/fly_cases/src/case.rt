use crate::content::Documents;
use crate::hands::{MemHand, crew};
use anyhow::{Context, Error, Result, anyhow};
use fly_ports::{MemFile, MemFiles, MemSink};
use fly_types::{Bytes, List, NoMemory, Text};
use serde_json::Value;
use std::alloc::Global;

/// The room of a file or a stream that a case says nothing of.
const ROOM: u64 = 1 << 16;

/// Want of memory, as an error of this program.
pub fn wants_memory(_: NoMemory) -> Error {
    anyhow!("out of memory")
}

/// A command line, and the outside that it is run over.
#[derive(Drop)]
pub struct Case {
    pub name: String,
    pub words: Vec<Text>,
    pub files: MemFiles,
    /// The paths, each with what it held before.
    pub before: Vec<(String, Option<String>)>,
    pub out: MemSink,
    pub err: MemSink,
    pub crew: Vec<MemHand>,
}

impl Case {
    /// The case that a line says: its name under `case`, its `words`, what each path of `files` has (null is no
    /// file) and for how many bytes in all some have room (`rooms`), which reads and appends fail (`bad_reads`,
    /// `bad_appends`, numbered from 1), for `out` and `err` the `room` and the calls that fail (`bad`), and the
    /// [`crew`].
    pub fn read(alloc: Global, documents: &Documents, line: &Value) -> Result<Case> {
        let name = line
            .get("case")
            .and_then(Value::as_str)
            .context("a case without a name")?;
        let before = contents(alloc, documents, line.get("files"))?;
        let files = MemFiles::make(
            alloc,
            List::from_vec(memory_files(alloc, &before, line.get("rooms"))?),
            numbers(alloc, line.get("bad_reads"))?,
            numbers(alloc, line.get("bad_appends"))?,
        )
        .map_err(wants_memory)?;
        Ok(Case {
            name: String::from_str(alloc, name)?,
            words: words(alloc, line.get("words"))?,
            files,
            before,
            out: sink(alloc, line.get("out"))?,
            err: sink(alloc, line.get("err"))?,
            crew: crew(alloc, documents, line)?,
        })
    }
}

fn words(alloc: Global, words: Option<&Value>) -> Result<Vec<Text>> {
    let mut all = Vec::new(alloc);
    for word in words.and_then(Value::as_array).into_iter().flatten() {
        let word = word.as_str().context("a word that is no text")?;
        all.push(Text::from_str(alloc, word).map_err(wants_memory)?)?;
    }
    Ok(all)
}

/// What each path has.
fn contents(
    alloc: Global,
    documents: &Documents,
    files: Option<&Value>,
) -> Result<Vec<(String, Option<String>)>> {
    let mut all = Vec::new(alloc);
    if let Some(files) = files.and_then(Value::as_object) {
        for (path, content) in files.iter() {
            let path = String::from_str(alloc, path)?;
            let content = if content.is_null() {
                None
            } else {
                Some(documents.content(alloc, content)?)
            };
            all.push((path, content))?;
        }
    }
    Ok(all)
}

fn memory_files(
    alloc: Global,
    contents: &[(String, Option<String>)],
    rooms: Option<&Value>,
) -> Result<Vec<MemFile>> {
    let mut all = Vec::new(alloc);
    for (path, content) in contents {
        let content = match content {
            Some(content) => Some(Bytes::from_vec(Vec::from_slice(alloc, content.as_bytes())?)),
            None => None,
        };
        all.push(MemFile {
            path: Text::from_str(alloc, path).map_err(wants_memory)?,
            content,
            room: rooms
                .and_then(|rooms| rooms.get(path.as_str()))
                .and_then(Value::as_u64)
                .unwrap_or(ROOM),
        })?;
    }
    Ok(all)
}

fn sink(alloc: Global, sink: Option<&Value>) -> Result<MemSink> {
    let room = sink
        .and_then(|sink| sink.get("room"))
        .and_then(Value::as_u64)
        .unwrap_or(ROOM);
    let bad = numbers(alloc, sink.and_then(|sink| sink.get("bad")))?;
    MemSink::make(alloc, room, bad).map_err(wants_memory)
}

/// The whole numbers of a list.
pub fn numbers(alloc: Global, numbers: Option<&Value>) -> Result<List<u64>> {
    let mut all = Vec::new(alloc);
    for number in numbers.and_then(Value::as_array).into_iter().flatten() {
        all.push(number.as_u64().context("a number")?)?;
    }
    Ok(List::from_vec(all))
}
