//! JSON objects that are built field by field, as texts.
ghost use Rattle.std.specs.Prelude.{◌≡◌, ◌++◌, [], IfOk, OnOk, option_map};
ghost use Rattle.serde_json.specs.Data.{string, number};
ghost use Rattle.serde_json.specs.Find.{of_integer};
ghost use Rattle.serde_json.specs.Written.{compact_text};
ghost use Rattle.hex.specs.Hex.{encode_lower};
ghost use Rattle.fly_docs.specs.AttemptName.{path_text as text_of_path, name_text};
ghost use Rattle.fly_writers.specs.Literals.{literal_map_json};
ghost use Rattle.fly_journal.specs.Moves.{count_json};
ghost use Rattle.fly_journal.specs.Texts.{field_text};

use crate::values::{count_value, moment_value, path_text, string_value};
use fly_docs::{AttemptName, print_name};
use fly_types::{Bytes, LiteralMap, NoMemory, Text};
use fly_writers::write_literal_map;
use std::alloc::Global;
use std::collections::BTreeMap;

/// An object under construction: the texts of its fields so far, in the order of their names.
#[derive(Drop)]
pub struct Object {
    pub alloc: Global,
    pub fields: BTreeMap<Text, Bytes>,
}

impl Object {
    ghost use Rattle.fly_journal.specs.Texts.{texts_of, with_text, with_value, object_text};

    pub fn new(alloc: Global) -> Object
        ensures { texts_of result ≡ [] }
    {
        Object {
            alloc,
            fields: BTreeMap::new(alloc),
        }
    }

    /// Adds a field whose value has this text.
    pub fn put(&mut self, name: &str, value: Vec<u8>) -> Result<(), NoMemory>
        ensures { OnOk result (texts_of self.new ≡ with_text (texts_of self.old) name.now value.items) }
    {
        let name = Text::from_str(self.alloc, name)?;
        self.fields.insert(name, Bytes::from_vec(value))?;
        Ok(())
    }

    /// Adds a text.
    pub fn text(&mut self, name: &str, text: &str) -> Result<(), NoMemory>
        ensures { OnOk result (texts_of self.new
            ≡ with_text (texts_of self.old) name.now (compact_text (string text.now))) }
    {
        let value = string_value(self.alloc, text)?;
        self.put(name, value)
    }

    /// Adds a number that counts.
    pub fn count(&mut self, name: &str, count: u64) -> Result<(), NoMemory>
        ensures { OnOk result (texts_of self.new
            ≡ with_text (texts_of self.old) name.now (compact_text (count_json count))) }
    {
        let value = count_value(self.alloc, count)?;
        self.put(name, value)
    }

    /// Adds a number that counts, where it is there.
    pub fn optional_count(&mut self, name: &str, count: Option<u64>) -> Result<(), NoMemory>
        ensures { OnOk result (texts_of self.new
            ≡ with_value (texts_of self.old) name.now (option_map count_json count)) }
    {
        match count {
            Some(count) => self.count(name, count),
            None => Ok(()),
        }
    }

    /// Adds a moment, in milliseconds.
    pub fn moment(&mut self, name: &str, moment: i64) -> Result<(), NoMemory>
        ensures { OnOk result (texts_of self.new
            ≡ with_text (texts_of self.old) name.now (compact_text (number (of_integer moment)))) }
    {
        let value = moment_value(self.alloc, moment)?;
        self.put(name, value)
    }

    /// Adds bytes as hexadecimal digits in lower case.
    pub fn hexadecimal(&mut self, name: &str, bytes: &[u8]) -> Result<(), NoMemory>
        ensures { OnOk result (texts_of self.new
            ≡ with_text (texts_of self.old) name.now (compact_text (string (encode_lower bytes.now)))) }
    {
        let digits = hex::encode(self.alloc, bytes)?;
        self.text(name, digits.as_str())
    }

    /// Adds literals by name.
    pub fn literals(&mut self, name: &str, literals: &LiteralMap) -> Result<(), NoMemory>
        ensures { OnOk result (texts_of self.new
            ≡ with_text (texts_of self.old) name.now (compact_text (literal_map_json literals.now))) }
    {
        let value = write_literal_map(self.alloc, literals)?;
        self.put(name, value)
    }

    /// Adds the path of a node.
    pub fn path(&mut self, name: &str, path: &[Text]) -> Result<(), NoMemory>
        ensures { OnOk result (texts_of self.new
            ≡ with_text (texts_of self.old) name.now (compact_text (string (text_of_path path.now)))) }
    {
        let path = path_text(self.alloc, path)?;
        self.text(name, path.as_str())
    }

    /// Adds the name of an attempt.
    pub fn attempt(&mut self, name: &str, attempt: &AttemptName) -> Result<(), NoMemory>
        ensures { OnOk result (texts_of self.new
            ≡ with_text (texts_of self.old) name.now (compact_text (string (name_text attempt.now)))) }
    {
        let attempt = print_name(self.alloc, attempt)?;
        self.text(name, attempt.as_str())
    }

    /// The object with no space.
    pub fn into_vec(self) -> Result<Vec<u8>, NoMemory>
        ensures { IfOk result (λ text. text.items ≡ object_text (texts_of self)) }
    {
        let mut text = Vec::new(self.alloc);
        text.push(b'{')?;
        let mut later = false;
        for (name, value) in &self.fields {
            if later {
                text.push(b',')?;
            }
            put_field(self.alloc, &mut text, name, value)?;
            later = true;
        }
        text.push(b'}')?;
        Ok(text)
    }
}

/// Appends one field.
fn put_field(alloc: Global, text: &mut Vec<u8>, name: &Text, value: &Bytes) -> Result<(), NoMemory>
    ensures { OnOk result (text.new.items ≡ text.old.items ++ field_text name.now value.now) }
{
    let name = string_value(alloc, name.as_str())?;
    text.extend_from_slice(&name)?;
    text.push(b':')?;
    text.extend_from_slice(value.as_slice())?;
    Ok(())
}
