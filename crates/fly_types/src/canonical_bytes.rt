ghost use Rattle.std.specs.Prelude.{◌≡◌, ◌++◌, map, IfOk, OnOk};
ghost use Rattle.std.specs.Int.{w32, w64};
ghost use Rattle.std.specs.List.{concat};
ghost use Rattle.fly_types.specs.Canonical.{number_bytes, count_bytes, signed_bytes, text_bytes, form_bytes, simple_number, type_bytes, tree_bytes, literal_bytes, map_bytes, entry_bytes, member_bytes};
ghost use Rattle.fly_types.specs.Sound.{IsSound, IsSoundMap, IsSoundType, IsSoundStruct};
ghost use Rattle.fly_types.specs.OneReading.{HaveMapsOwnBytes, IsPrefixFree};

use crate::{BlobType, List, Literal, LiteralMap, LiteralType, NoMemory, Simple, Text, Tree};
use std::alloc::Global;

/// The canonical bytes of literals by name, from which cache keys are made: those of the map literal with the same
/// entries. Sound maps with equal bytes are equal.
pub fn canonical(alloc: Global, literals: &LiteralMap) -> Result<Vec<u8>, NoMemory>
    ensures { IfOk result (λ bytes. bytes.items ≡ map_bytes literals.now) }
{
    let mut out = Vec::new(alloc);
    write_map(&mut out, &literals.entries)?;
    Ok(out)
}

fn write_bytes(out: &mut Vec<u8>, bytes: &[u8]) -> Result<(), NoMemory>
    ensures { OnOk result (out.new.items ≡ out.old.items ++ bytes.now) }
{
    out.extend_from_slice(bytes)?;
    Ok(())
}

#[tactic(auto, unfolding(crate::specs::Canonical::number_bytes))]
fn write_count(out: &mut Vec<u8>, length: usize) -> Result<(), NoMemory>
    ensures { OnOk result (out.new.items ≡ out.old.items ++ count_bytes length) }
{
    write_bytes(out, &(length as u64).to_be_bytes())
}

#[tactic(auto, unfolding(crate::specs::Canonical::number_bytes))]
fn write_integer(out: &mut Vec<u8>, value: i64) -> Result<(), NoMemory>
    ensures { OnOk result (out.new.items ≡ out.old.items ++ signed_bytes w64 value) }
{
    write_bytes(out, &value.to_be_bytes())
}

#[tactic(auto, unfolding(crate::specs::Canonical::number_bytes))]
fn write_nanos(out: &mut Vec<u8>, nanos: u32) -> Result<(), NoMemory>
    ensures { OnOk result (out.new.items ≡ out.old.items ++ number_bytes w32 nanos) }
{
    write_bytes(out, &nanos.to_be_bytes())
}

#[tactic(auto, unfolding(crate::specs::Canonical::number_bytes))]
fn write_signed_nanos(out: &mut Vec<u8>, nanos: i32) -> Result<(), NoMemory>
    ensures { OnOk result (out.new.items ≡ out.old.items ++ signed_bytes w32 nanos) }
{
    write_bytes(out, &nanos.to_be_bytes())
}

fn write_string(out: &mut Vec<u8>, bytes: &[u8]) -> Result<(), NoMemory>
    ensures { OnOk result (out.new.items ≡ out.old.items ++ text_bytes bytes.now) }
{
    write_count(out, bytes.len())?;
    write_bytes(out, bytes)
}

fn write_text(out: &mut Vec<u8>, text: &Text) -> Result<(), NoMemory>
    ensures { OnOk result (out.new.items ≡ out.old.items ++ text_bytes text.now) }
{
    write_string(out, text.as_str().as_bytes())
}

fn write_form(out: &mut Vec<u8>, form: &BlobType) -> Result<(), NoMemory>
    ensures { OnOk result (out.new.items ≡ out.old.items ++ form_bytes form.now) }
{
    write_text(out, &form.format)?;
    out.push(u8::from(form.multipart))?;
    Ok(())
}

fn simple_number(simple: Simple) -> u8
    ensures { result ≡ simple_number simple }
{
    match simple {
        Simple::None => 0,
        Simple::Integer => 1,
        Simple::Text => 3,
        Simple::Boolean => 4,
        Simple::Datetime => 5,
        Simple::Duration => 6,
        Simple::Binary => 7,
        Simple::Error => 8,
        Simple::Struct => 9,
    }
}

#[cycle(write_type)]
#[tactic(auto, using(std::proofs::lemmas::Grind::common_steps, crate::proofs::Layers::type_variants))]
fn write_type(out: &mut Vec<u8>, kind: &LiteralType) -> Result<(), NoMemory>
    ensures { OnOk result (out.new.items ≡ out.old.items ++ type_bytes kind.now) }
{
    match kind {
        LiteralType::Simple(simple) => {
            out.push(0x10)?;
            out.push(simple_number(*simple))?;
            Ok(())
        }
        LiteralType::Collection(element) => {
            out.push(0x11)?;
            write_type(out, element.get())
        }
        LiteralType::Map(value) => {
            out.push(0x12)?;
            write_type(out, value.get())
        }
        LiteralType::Blob(form) => {
            out.push(0x13)?;
            write_form(out, form)
        }
        LiteralType::Enum(values) => {
            out.push(0x14)?;
            write_count(out, values.len())?;
            write_texts(out, values.as_slice())
        }
        LiteralType::Union(variants) => {
            out.push(0x15)?;
            write_count(out, variants.len())?;
            write_types(out, variants.as_slice())
        }
    }
}

fn write_texts(out: &mut Vec<u8>, texts: &[Text]) -> Result<(), NoMemory>
    ensures { OnOk result (out.new.items ≡ out.old.items ++ concat (map text_bytes texts.now)) }
{
    for text in texts {
        write_text(out, text)?;
    }
    Ok(())
}

#[cycle(write_type)]
fn write_types(out: &mut Vec<u8>, kinds: &[LiteralType]) -> Result<(), NoMemory>
    ensures { OnOk result (out.new.items ≡ out.old.items ++ concat (map type_bytes kinds.now)) }
{
    for kind in kinds {
        write_type(out, kind)?;
    }
    Ok(())
}

#[cycle(write_tree)]
#[tactic(auto, using(std::proofs::lemmas::Grind::common_steps, crate::proofs::Layers::tree_variants))]
fn write_tree(out: &mut Vec<u8>, tree: &Tree) -> Result<(), NoMemory>
    ensures { OnOk result (out.new.items ≡ out.old.items ++ tree_bytes tree.now) }
{
    match tree {
        Tree::Null => {
            out.push(0x00)?;
            Ok(())
        }
        Tree::Bool(value) => {
            out.push(0x01)?;
            out.push(u8::from(*value))?;
            Ok(())
        }
        Tree::Whole(value) => {
            out.push(0x02)?;
            write_integer(out, *value)
        }
        Tree::Text(text) => {
            out.push(0x03)?;
            write_text(out, text)
        }
        Tree::List(trees) => {
            out.push(0x04)?;
            write_count(out, trees.len())?;
            write_trees(out, trees.as_slice())
        }
        Tree::Object(members) => {
            out.push(0x05)?;
            write_count(out, members.len())?;
            write_members(out, members.as_slice())
        }
    }
}

#[cycle(write_tree)]
fn write_trees(out: &mut Vec<u8>, trees: &[Tree]) -> Result<(), NoMemory>
    ensures { OnOk result (out.new.items ≡ out.old.items ++ concat (map tree_bytes trees.now)) }
{
    for tree in trees {
        write_tree(out, tree)?;
    }
    Ok(())
}

#[cycle(write_tree)]
fn write_members(out: &mut Vec<u8>, members: &[(Text, Tree)]) -> Result<(), NoMemory>
    ensures { OnOk result (out.new.items ≡ out.old.items ++ concat (map member_bytes members.now)) }
{
    for (name, tree) in members {
        write_text(out, name)?;
        write_tree(out, tree)?;
    }
    Ok(())
}

#[cycle(write_literal)]
#[tactic(auto, using(std::proofs::lemmas::Grind::common_steps, crate::proofs::Layers::literal_variants))]
fn write_literal(out: &mut Vec<u8>, literal: &Literal) -> Result<(), NoMemory>
    ensures { OnOk result (out.new.items ≡ out.old.items ++ literal_bytes literal.now) }
{
    match literal {
        Literal::None => {
            out.push(0x01)?;
            Ok(())
        }
        Literal::Integer(value) => {
            out.push(0x02)?;
            write_integer(out, *value)
        }
        Literal::Text(text) => {
            out.push(0x03)?;
            write_text(out, text)
        }
        Literal::Boolean(value) => {
            out.push(0x04)?;
            out.push(u8::from(*value))?;
            Ok(())
        }
        Literal::Datetime { seconds, nanos } => {
            out.push(0x05)?;
            write_integer(out, *seconds)?;
            write_nanos(out, *nanos)
        }
        Literal::Duration { seconds, nanos } => {
            out.push(0x06)?;
            write_integer(out, *seconds)?;
            write_signed_nanos(out, *nanos)
        }
        Literal::Blob { uri, form } => {
            out.push(0x07)?;
            write_text(out, uri)?;
            write_form(out, form)
        }
        Literal::Binary { value, tag } => {
            out.push(0x08)?;
            write_string(out, value.as_slice())?;
            write_text(out, tag)
        }
        Literal::Error { node, message } => {
            out.push(0x09)?;
            write_text(out, node)?;
            write_text(out, message)
        }
        Literal::Generic(tree) => {
            out.push(0x0a)?;
            write_tree(out, tree)
        }
        Literal::Union { value, variant } => {
            out.push(0x0b)?;
            write_type(out, variant.get())?;
            write_literal(out, value.get())
        }
        Literal::Map(entries) => write_map(out, entries),
        Literal::Collection(elements) => {
            out.push(0x0d)?;
            write_count(out, elements.len())?;
            write_literals(out, elements.as_slice())
        }
    }
}

#[cycle(write_literal)]
#[tactic(auto, using(std::proofs::lemmas::Grind::common_steps, crate::proofs::Layers::literal_variants))]
fn write_map(out: &mut Vec<u8>, entries: &List<(Text, Literal)>) -> Result<(), NoMemory>
    ensures { OnOk result (out.new.items ≡ out.old.items ++ literal_bytes (Literal.Map entries.now)) }
{
    out.push(0x0c)?;
    write_count(out, entries.len())?;
    write_entries(out, entries.as_slice())
}

#[cycle(write_literal)]
fn write_literals(out: &mut Vec<u8>, literals: &[Literal]) -> Result<(), NoMemory>
    ensures { OnOk result (out.new.items ≡ out.old.items ++ concat (map literal_bytes literals.now)) }
{
    for literal in literals {
        write_literal(out, literal)?;
    }
    Ok(())
}

#[cycle(write_literal)]
fn write_entries(out: &mut Vec<u8>, entries: &[(Text, Literal)]) -> Result<(), NoMemory>
    ensures { OnOk result (out.new.items ≡ out.old.items ++ concat (map entry_bytes entries.now)) }
{
    for (name, literal) in entries {
        write_text(out, name)?;
        write_literal(out, literal)?;
    }
    Ok(())
}

/// Two sound maps of literals with the same canonical bytes are one map. The call does nothing: its contract is the
/// law.
pub fn maps_have_own_bytes()
    ensures { HaveMapsOwnBytes }
{}

/// No sound value's canonical bytes are a prefix of another's, so that they can be told apart wherever they stand. The
/// call does nothing: its contract is the law.
pub fn bytes_are_prefix_free()
    ensures literals { IsPrefixFree IsSound literal_bytes }
    ensures maps { IsPrefixFree IsSoundMap map_bytes }
    ensures types { IsPrefixFree IsSoundType type_bytes }
    ensures structs { IsPrefixFree IsSoundStruct tree_bytes }
{}
