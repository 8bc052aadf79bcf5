use crate::hands::{MemHand, print_hand};
use fly_app::Status;
use fly_ports::{MemFiles, MemSink};
use std::io::{self, Write};

/// What a case came to.
#[derive(Drop)]
pub struct Outcome {
    pub name: String,
    pub status: Status,
    pub out: MemSink,
    pub err: MemSink,
    pub files: MemFiles,
    /// The paths, each with what it held before.
    pub before: Vec<(String, Option<String>)>,
    pub crew: Vec<MemHand>,
}

impl Outcome {
    /// Prints the name with the status, and then what standard output, standard error and each file that changed
    /// got, a line each behind its name, and what the crew did.
    pub fn print<W: Write>(&mut self, writer: &mut W) -> io::Result<()> {
        let name = self.name.as_str();
        let status = self.status as u8;
        writeln!(writer, "{name}: {status}")?;
        print_lines(writer, "out", self.out.bytes())?;
        print_lines(writer, "err", self.err.bytes())?;
        for (path, before) in &self.before {
            let now = self.files.content(path);
            let was = before.as_ref().map(|text| text.as_bytes());
            if now != was {
                print_lines(writer, path, now.unwrap_or(b""))?;
            }
        }
        for hand in self.crew.iter_mut() {
            print_hand(writer, hand)?;
        }
        Ok(())
    }
}

/// Prints each line of the text behind a label. One without its newline has `..` behind it.
fn print_lines<W: Write>(writer: &mut W, label: &str, text: &[u8]) -> io::Result<()> {
    if text.is_empty() {
        return Ok(());
    }
    for line in text
        .strip_suffix(b"\n")
        .unwrap_or(text)
        .split(|byte| *byte == b'\n')
    {
        write!(writer, "  {label} ")?;
        writer.write_all(line)?;
        writeln!(writer)?;
    }
    if !text.ends_with(b"\n") {
        writeln!(writer, "  {label} ends without a newline")?;
    }
    Ok(())
}
