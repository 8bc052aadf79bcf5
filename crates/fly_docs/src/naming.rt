//! The texts of the names of attempts, written and read.
ghost use Rattle.std.specs.Prelude.{◌≡◌, ◌≢◌, ℕ, ◌^◌, ◌<◌, ◌≤◌, ◌∷◌, ◌++◌, List as Listed, Option as Maybe, length, IfOk, IsTrue, MatchOption, Err, map, slice_index, string_bytes, ◌↔◌, ◌==◌, ⊤};
ghost use Rattle.std.specs.Fmt.{decimal};
ghost use Rattle.std.specs.List.{All, slice_split};
ghost use Rattle.fly_docs.specs.Names.{IsId};
ghost use Rattle.fly_docs.specs.AttemptName.{slash, hash_sign, at_sign, path_text, item_text, name_text, Lacks, AreParts, IsTextOf, IsItem};
ghost use Rattle.fly_docs.specs.declared.attempt_name.AttemptName as attempt_name;
ghost use Rattle.fly_docs.specs.declared.naming.NameFault.TheVariants as faults;

use crate::{AttemptName, is_id};
use fly_types::{List, NoMemory, Text};
use std::alloc::Global;

/// Why a text was not read as the name of an attempt.
#[derive(Clone, Copy, Debug, PartialEq, Eq)]
pub enum NameFault {
    /// No name has the text.
    NotAName,
    NoMemory,
}

impl From<NoMemory> for NameFault {
    fn from(_: NoMemory) -> NameFault {
        NameFault::NoMemory
    }
}

/// The text of a name: `exec/path@attempt`, or `exec/path#item@attempt` for an item.
pub fn print_name(alloc: Global, n: &AttemptName) -> Result<Text, NoMemory>
    ensures { IfOk result (λ t. t ≡ name_text n.now) }
{
    let mut text = String::from_str(alloc, n.exec.as_str())?;
    for id in n.path.as_slice() {
        text.push_str("/")?;
        text.push_str(id.as_str())?;
    }
    let numbers = numbers_text(alloc, n.item, n.attempt)?;
    text.push_str(numbers.as_str())?;
    Ok(Text::from_string(text))
}

/// The item where there is one, and the attempt.
fn numbers_text(alloc: Global, item: Option<u32>, attempt: u32) -> Result<String, NoMemory>
    ensures { IfOk result (λ t. string_bytes t ≡ item_text item ++ at_sign ∷ decimal attempt) }
{
    match item {
        Some(item) => Ok(format!(in alloc; "#{item}@{attempt}")?),
        None => Ok(format!(in alloc; "@{attempt}")?),
    }
}

/// The name that has the text.
pub fn read_name(alloc: Global, t: &Text) -> Result<AttemptName, NameFault>
    ensures read { IfOk result (λ n. IsTextOf t.now n) }
    ensures not_a_name { result ≡ Err faults.NotAName → (n : attempt_name.AttemptName) → IsTextOf t.now n → ⊥ }
    ensures only { IfOk result (λ m. (n : attempt_name.AttemptName) → IsTextOf t.now n → n ≡ m) }
{
    let Some((rest, attempt)) = cut_attempt(t.as_str()) else {
        return Err(NameFault::NotAName);
    };
    let Some((ids, item)) = cut_item(rest) else {
        return Err(NameFault::NotAName);
    };
    let Some((exec, path)) = cut_exec(ids) else {
        return Err(NameFault::NotAName);
    };
    let Ok(path) = ids_of(alloc, path) else {
        return Err(NameFault::NoMemory);
    };
    let Some(path) = path else {
        return Err(NameFault::NotAName);
    };
    let Ok(exec) = Text::from_str(alloc, exec) else {
        return Err(NameFault::NoMemory);
    };
    Ok(AttemptName {
        exec,
        path,
        item,
        attempt,
    })
}

/// What stands before the first such character, and behind it.
fn cut(text: &str, at: char) -> Option<(&str, &str)>
    requires { at < 128 }
    ensures { MatchOption result (Lacks at text.now)
        (λ r. AreParts at text.now r.0.now r.1.now) }
{
    text.split_once(at)
}

/// What stands before the number of the attempt, and that number.
fn cut_attempt(text: &str) -> Option<(&str, u32)>
    ensures { MatchOption result
        ((rest : Listed ℕ) (n : ℕ) → Lacks at_sign rest → n < 2 ^ 32 → text.now ≢ rest ++ at_sign ∷ decimal n)
        (λ r. Lacks at_sign r.0.now × (r.1 < 2 ^ 32) × (text.now ≡ r.0.now ++ at_sign ∷ decimal r.1)) }
{
    match cut(text, '@') {
        Some((rest, attempt)) => match read_number(attempt) {
            Some(attempt) => Some((rest, attempt)),
            None => None,
        },
        None => None,
    }
}

/// The ids of a name, and the number of the item where there is one.
fn cut_item(text: &str) -> Option<(&str, Option<u32>)>
    ensures { MatchOption result
        ((ids : Listed ℕ) (item : Maybe ℕ) → Lacks hash_sign ids → IsItem item → text.now ≢ ids ++ item_text item)
        (λ r. Lacks hash_sign r.0.now × IsItem r.1 × (text.now ≡ r.0.now ++ item_text r.1)) }
{
    match cut(text, '#') {
        Some((ids, item)) => match read_number(item) {
            Some(item) => Some((ids, Some(item))),
            None => None,
        },
        None => Some((text, None)),
    }
}

/// The id of the execution, and the path.
fn cut_exec(text: &str) -> Option<(&str, &str)>
    ensures { MatchOption result
        ((exec : Listed ℕ) (path : Listed ℕ) → IsId exec → text.now ≢ exec ++ slash ∷ path)
        (λ r. IsId r.0.now × (text.now ≡ r.0.now ++ slash ∷ r.1.now)) }
{
    match cut(text, '/') {
        Some((exec, path)) => {
            if is_id(exec) {
                Some((exec, path))
            } else {
                None
            }
        }
        None => None,
    }
}

/// The ids that slashes part, where each part is one.
fn ids_of(alloc: Global, text: &str) -> Result<Option<List<Text>>, NoMemory>
    ensures { IfOk result (λ o. MatchOption o
        ((ids : Listed (Listed ℕ)) → All IsId ids → 1 ≤ length ids → text.now ≢ path_text ids)
        (λ ids. (text.now ≡ path_text ids) × All IsId ids × (1 ≤ length ids))) }
{
    let parts = parts_of(alloc, text)?;
    if !are_ids(&parts) {
        return Ok(None);
    }
    Ok(Some(texts_of(alloc, &parts)?))
}

/// What slashes part.
fn parts_of(alloc: Global, text: &str) -> Result<Vec<&str>, NoMemory>
    ensures { IfOk result (λ parts. map (λ p. p.now) parts.items ≡ slice_split (λ b. b == slash) text.now) }
{
    Ok(text.split('/').collect(alloc)?)
}

fn are_ids(parts: &[&str]) -> bool
    ensures { IsTrue result ↔ All IsId (map (λ p. p.now) parts.now) }
{
    parts.iter().all(|part| is_id(part))
}

fn texts_of(alloc: Global, parts: &[&str]) -> Result<List<Text>, NoMemory>
    ensures { IfOk result (λ texts. texts ≡ map (λ p. p.now) parts.now) }
{
    let mut texts = Vec::with_capacity(alloc, parts.len())?;
    for part in parts {
        texts.push(Text::from_str(alloc, part)?)?;
    }
    Ok(List::from_vec(texts))
}

/// The number of 32 bits that is written in decimal, without a sign or leading zeros. Takes no memory.
pub fn read_number(text: &str) -> Option<u32>
    ensures { MatchOption result
        ((n : ℕ) → n < 2 ^ 32 → text.now ≢ decimal n)
        (λ n. (n < 2 ^ 32) × (text.now ≡ decimal n)) }
{
    if text.starts_with('+') {
        return None;
    }
    if text.len() <= 1 {
        return parsed(text);
    }
    if text.starts_with('0') {
        return None;
    }
    parsed(text)
}

/// The number of a text that begins with no plus, and with a zero only where that is all.
fn parsed(text: &str) -> Option<u32>
    requires plus { slice_index text.now 0 ≢ 43 }
    requires zero { slice_index text.now 0 ≡ 48 → length text.now ≤ 1 }
    ensures { MatchOption result
        ((n : ℕ) → n < 2 ^ 32 → text.now ≢ decimal n)
        (λ n. (n < 2 ^ 32) × (text.now ≡ decimal n)) }
{
    match text.parse::<u32>() {
        Ok(n) => Some(n),
        Err(_) => None,
    }
}
