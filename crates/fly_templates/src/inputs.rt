ghost use Rattle.std.specs.Prelude.{◌≡◌, IsTrue};
ghost use Rattle.std.specs.Option.{option_copied};
ghost use Rattle.std.specs.Ordering.{nat_cmp};
ghost use Rattle.std.specs.Cmp.Lexicographic.{slice_cmp};
ghost use Rattle.fly_types.specs.Sound.{AreNamesSorted};
ghost use Rattle.fly_types.specs.Lookup.{value_of};

use fly_types::{Literal, LiteralMap, Text};
use std::marker::Model;

/// The inputs of a task, found by name. Contracts see the map.
#[derive(Drop)]
pub(crate) struct Inputs<'a> {
    map: &'a LiteralMap,
    /// Whether the names are in order, so that one is found by halving.
    sorted: bool,
}

impl<'a> Model for Inputs<'a> {
    ghost use Rattle.std.specs.Prelude.{IsTrue};
    ghost use Rattle.fly_types.specs.declared.literals.LiteralMap.{LiteralMap as Literals};
    ghost use Rattle.fly_types.specs.Sound.{AreNamesSorted};
    ghost use Rattle.std.specs.Coded.{codes};
    ghost use Rattle.fly_types.specs.contracts.literals.Literal as literal;

    ghost Value = { Literals };

    ghost coded = { Prim.hlevel (codes, literal.the_row.coded) };

    ghost view = { λ inputs. inputs.map.now };

    ghost invariant = { λ inputs. IsTrue inputs.sorted → AreNamesSorted inputs.map.now.entries };
}

impl<'a> Inputs<'a> {
    pub(crate) fn new(map: &'a LiteralMap) -> Inputs<'a>
        ensures { result ≡ map.now }
    {
        let sorted = are_sorted(map.entries.as_slice());
        Inputs { map, sorted }
    }

    /// The value under the name.
    pub(crate) fn get(&self, name: &[u8]) -> Option<&'a Literal>
        ensures { option_copied result ≡ value_of self.now.entries name.now }
    {
        let entries = self.map.entries.as_slice();
        if self.sorted {
            found_by_halving(entries, name)
        } else {
            found_in_turn(entries, name)
        }
    }
}

/// Whether the names rise by their bytes, so that none comes twice.
fn are_sorted(entries: &[(Text, Literal)]) -> bool
    ensures { IsTrue result → AreNamesSorted entries.now }
{
    for i in 1..entries.len() {
        if entries[i - 1].0 >= entries[i].0 {
            return false;
        }
    }
    true
}

fn found_by_halving<'a>(entries: &'a [(Text, Literal)], name: &[u8]) -> Option<&'a Literal>
    requires { AreNamesSorted entries.now }
    ensures { option_copied result ≡ value_of entries.now name.now }
{
    match entries.binary_search_by(
        |entry|
            ensures { result ≡ slice_cmp nat_cmp entry.now.0 name.entry.now }
        { entry.0.as_str().as_bytes().cmp(name) },
    ) {
        Ok(at) => Some(&entries[at].1),
        Err(_) => None,
    }
}

fn found_in_turn<'a>(entries: &'a [(Text, Literal)], name: &[u8]) -> Option<&'a Literal>
    ensures { option_copied result ≡ value_of entries.now name.now }
{
    for (own_name, value) in entries {
        if own_name.as_str().as_bytes() == name {
            return Some(value);
        }
    }
    None
}
