use anyhow::{Context, Result, bail};
use serde_json::Value;
use std::alloc::Global;
use std::collections::BTreeMap;

/// The most bytes that a repeated text may come to.
const MAX_REPEATED: usize = 1 << 25;

/// The documents that cases name, as text.
#[derive(Drop)]
pub struct Documents {
    texts: BTreeMap<String, String>,
}

impl Documents {
    pub fn new(alloc: Global) -> Documents {
        Documents {
            texts: BTreeMap::new(alloc),
        }
    }

    /// Keeps a document under its name: the text of its `json`, or what its `content` is.
    pub fn add(&mut self, alloc: Global, name: &str, line: &Value) -> Result<()> {
        let text = match (line.get("json"), line.get("content")) {
            (Some(json), _) => json.to_string(alloc)?,
            (None, Some(content)) => self.content(alloc, content)?,
            (None, None) => bail!("a document without json and content"),
        };
        self.texts.insert(String::from_str(alloc, name)?, text)?;
        Ok(())
    }

    /// The text that a content is: a text itself; a list of contents, one behind the other; `from`, a document's
    /// text in which the first place of each old text of `put` is written anew; or `text`, repeated.
    pub fn content(&self, alloc: Global, content: &Value) -> Result<String> {
        match content {
            Value::String(text) => Ok(String::from_str(alloc, text)?),
            Value::Array(parts) => {
                let mut all = String::new(alloc);
                for part in parts {
                    all.push_str(self.part(alloc, part)?.as_str())?;
                }
                Ok(all)
            }
            part => self.part(alloc, part),
        }
    }

    /// A content that is no list.
    fn part(&self, alloc: Global, part: &Value) -> Result<String> {
        if let Some(text) = part.as_str() {
            return Ok(String::from_str(alloc, text)?);
        }
        if let Some(name) = part.get("from").and_then(Value::as_str) {
            return self.changed(alloc, name, part.get("put"));
        }
        let text = part
            .get("text")
            .and_then(Value::as_str)
            .context("a content without from and text")?;
        let times = part.get("times").and_then(Value::as_u64).unwrap_or(1);
        repeated(alloc, text, times)
    }

    /// The text of a document with these changes.
    fn changed(&self, alloc: Global, name: &str, changes: Option<&Value>) -> Result<String> {
        let base = self.texts.get(name).context("a document that has no name")?;
        let mut text = String::from_str(alloc, base)?;
        for change in changes.and_then(Value::as_array).into_iter().flatten() {
            let old = change
                .get(0)
                .and_then(Value::as_str)
                .context("an old text")?;
            let new = change.get(1).and_then(Value::as_str).context("a new text")?;
            if !text.contains(old) {
                bail!("an old text that is not there");
            }
            text = text.replacen(alloc, old, new, 1)?;
        }
        Ok(text)
    }
}

/// The text, so many times.
fn repeated(alloc: Global, text: &str, times: u64) -> Result<String> {
    let mut all = String::new(alloc);
    for _ in 0..times {
        if all.len() > MAX_REPEATED {
            bail!("a content that is too long");
        }
        all.push_str(text)?;
    }
    Ok(all)
}
