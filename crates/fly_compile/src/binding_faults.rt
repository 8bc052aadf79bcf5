//! What is wrong with bindings, in the order of the report.
ghost use Rattle.std.specs.Prelude.{◌≡◌, ◌++◌, ◌∷◌, [], if◌then◌else◌, not, map, filter, take, flat_map, codes, IfOk, OnOk};
ghost use Rattle.std.specs.List.{list_any, enumerate_from};
ghost use Rattle.std.specs.BTreeSet.{contains};
ghost use Rattle.fly_docs.specs.Bindings as bindings;
ghost use Rattle.fly_faults.specs.BindingFaults as spec;
ghost use Rattle.fly_compile.specs.BoundNames.{HasNames, has_name};
ghost use Rattle.fly_faults.specs.OutputTypes.{source_of_origin};
ghost use Rattle.fly_faults.specs.Places as places;
ghost use Rattle.fly_compile.specs.Promises.{known, with_sources};
ghost use Rattle.fly_compile.specs.Scopes.{source_there};
ghost use Rattle.fly_compile.specs.Sites.{wanted_value, site_of, HasSortedNames};

use crate::misfits::{fits_wanted, misfit};
use crate::promises::{Promise, promises_of};
use crate::site::Site;
use crate::{Code, Fault};
use fly_docs::Binding;
use fly_faults::{concatenated, report_at, report_with, variable_place};
use fly_types::{NoMemory, Text, Variable};
use std::alloc::Global;
use std::collections::BTreeSet;

/// NodeNotFound for a promise of a node that is not there.
fn push_node_fault(
    alloc: Global,
    faults: &mut Vec<Fault>,
    promise: &Promise<'_>,
    place: &Text,
) -> Result<(), NoMemory>
    ensures { OnOk result (faults.new.items ≡ faults.old.items
        ++ (if spec.is_no_node (known promise.now).1 then places.fault_with Code.NodeNotFound place.now (known promise.now).0.0 ∷ [] else [])) }
{
    if !promise.origin.is_no_node() {
        return Ok(());
    }
    let node = Text::from_str(alloc, promise.node)?;
    report_with(alloc, faults, Code::NodeNotFound, place, node)
}

fn push_node_faults(
    alloc: Global,
    faults: &mut Vec<Fault>,
    promises: &[Promise<'_>],
    place: &Text,
) -> Result<(), NoMemory>
    ensures { OnOk result (faults.new.items ≡ faults.old.items
        ++ map (λ promise. places.fault_with Code.NodeNotFound place.now (known promise).0.0) (filter (λ promise. spec.is_no_node (known promise).1) promises.now)) }
{
    for promise in promises {
        push_node_fault(alloc, faults, promise, place)?;
    }
    Ok(())
}

/// VariableNotFound for a promise of a variable that is not there.
fn push_variable_fault(
    alloc: Global,
    faults: &mut Vec<Fault>,
    promise: &Promise<'_>,
    place: &Text,
) -> Result<(), NoMemory>
    ensures { OnOk result (faults.new.items ≡ faults.old.items
        ++ (if spec.is_no_variable (known promise.now).1
        then places.fault_with Code.VariableNotFound place.now ((known promise.now).0.0 ++ codes "." ++ (known promise.now).0.1) ∷ [] else [])) }
{
    if !promise.origin.is_no_variable() {
        return Ok(());
    }
    let promised = concatenated(alloc, promise.node, ".", promise.var.as_str())?;
    report_with(alloc, faults, Code::VariableNotFound, place, promised)
}

fn push_variable_faults(
    alloc: Global,
    faults: &mut Vec<Fault>,
    promises: &[Promise<'_>],
    place: &Text,
) -> Result<(), NoMemory>
    ensures { OnOk result (faults.new.items ≡ faults.old.items
        ++ map (λ promise. places.fault_with Code.VariableNotFound place.now ((known promise).0.0 ++ codes "." ++ (known promise).0.1))
        (filter (λ promise. spec.is_no_variable (known promise).1) promises.now)) }
{
    for promise in promises {
        push_variable_fault(alloc, faults, promise, place)?;
    }
    Ok(())
}

/// Whether a promise is of a node that is not there.
fn lacks_node(promises: &[Promise<'_>]) -> bool
    ensures { result ≡ list_any (λ promise. spec.is_no_node (known promise).1) promises.now }
{
    promises.iter().any(|promise| promise.origin.is_no_node())
}

/// Whether a promise is of a variable that is not there.
fn lacks_variable(promises: &[Promise<'_>]) -> bool
    ensures { result ≡ list_any (λ promise. spec.is_no_variable (known promise).1) promises.now }
{
    promises
        .iter()
        .any(|promise| promise.origin.is_no_variable())
}

/// What is wrong with the value, where all that it promises is there.
fn push_value_faults(
    alloc: Global,
    faults: &mut Vec<Fault>,
    site: &Site<'_, '_, '_>,
    promises: &[Promise<'_>],
    x: &Binding,
    place: &Text,
) -> Result<(), NoMemory>
    requires sorted { HasSortedNames site.now.inputs }
    requires promises { map known promises.now ≡ with_sources (source_there site.now.sources.now) (bindings.promises_of x.now.bound) }
    requires place { place.now ≡ places.variable_place site.now.place x.now.var }
    ensures { OnOk result (faults.new.items ≡ faults.old.items ++ spec.value_faults (site_of site.now) x.now (spec.wanted_for (site_of site.now) x.now.var)) }
{
    let Some(wanted) = site.inputs.find(&x.var) else {
        return Ok(());
    };
    if lacks_node(promises) {
        return Ok(());
    }
    if lacks_variable(promises) {
        return Ok(());
    }
    if fits_wanted(alloc, site, &x.bound, wanted)? {
        return Ok(());
    }
    faults.push(misfit(alloc, site, x, wanted, place)?)?;
    Ok(())
}

/// VariableNotFound where the interface does not have the variable.
fn push_wanted_faults(
    alloc: Global,
    faults: &mut Vec<Fault>,
    site: &Site<'_, '_, '_>,
    x: &Binding,
    place: &Text,
) -> Result<(), NoMemory>
    requires sorted { HasSortedNames site.now.inputs }
    requires place { place.now ≡ places.variable_place site.now.place x.now.var }
    ensures { OnOk result (faults.new.items ≡ faults.old.items ++ spec.wanted_faults (site_of site.now) x.now) }
{
    if site.inputs.is_unknown() {
        return Ok(());
    }
    if site.inputs.find(&x.var).is_some() {
        return Ok(());
    }
    report_at(alloc, faults, Code::VariableNotFound, place)
}

/// BoundTwice, where an earlier binding has the variable.
fn push_twice_faults(
    alloc: Global,
    faults: &mut Vec<Fault>,
    place: &Text,
    is_first: bool,
) -> Result<(), NoMemory>
    ensures { OnOk result (faults.new.items ≡ faults.old.items ++ (if is_first then [] else places.fault_at Code.BoundTwice place.now ∷ [])) }
{
    if is_first {
        return Ok(());
    }
    report_at(alloc, faults, Code::BoundTwice, place)
}

/// The faults of one binding, which is the first of its variable or not.
fn push_binding_faults<'a>(
    alloc: Global,
    faults: &mut Vec<Fault>,
    site: &Site<'_, '_, 'a>,
    x: &'a Binding,
    is_first: bool,
) -> Result<(), NoMemory>
    requires sorted { HasSortedNames site.now.inputs }
    ensures { OnOk result (faults.new.items ≡ faults.old.items
        ++ ((if is_first then [] else places.fault_at Code.BoundTwice (places.variable_place site.now.place x.now.var) ∷ [])
        ++ spec.wanted_faults (site_of site.now) x.now
        ++ spec.node_faults (site_of site.now) x.now
        ++ spec.variable_faults (site_of site.now) x.now
        ++ spec.value_faults (site_of site.now) x.now (spec.wanted_for (site_of site.now) x.now.var))) }
{
    let place = variable_place(alloc, &site.place, &x.var)?;
    let promises = promises_of(alloc, site.sources, &x.bound)?;
    push_twice_faults(alloc, faults, &place, is_first)?;
    push_wanted_faults(alloc, faults, site, x, &place)?;
    push_node_faults(alloc, faults, &promises, &place)?;
    push_variable_faults(alloc, faults, &promises, &place)?;
    push_value_faults(alloc, faults, site, &promises, x, &place)
}

/// The faults of all bindings, in their order, and the names that are bound.
pub(crate) fn push_bindings_faults<'a>(
    alloc: Global,
    faults: &mut Vec<Fault>,
    site: &Site<'_, '_, 'a>,
    bindings: &'a [Binding],
) -> Result<BTreeSet<&'a str>, NoMemory>
    requires sorted { HasSortedNames site.now.inputs }
    ensures faults { OnOk result (faults.new.items ≡ faults.old.items ++ spec.bindings_faults (site_of site.now) bindings.now) }
    ensures names { IfOk result (HasNames bindings.now) }
{
    let mut names = BTreeSet::new(alloc);
    for x in bindings {
        let is_first = names.insert(x.var.as_str())?;
        push_binding_faults(alloc, faults, site, x, is_first)?;
    }
    Ok(names)
}

/// A fault for a variable that is not among the names.
fn push_unbound_fault(
    alloc: Global,
    faults: &mut Vec<Fault>,
    code: Code,
    place: &Text,
    variable: &Variable,
    names: &BTreeSet<&str>,
) -> Result<(), NoMemory>
    ensures { OnOk result (faults.new.items ≡ faults.old.items
        ++ (if has_name names.now variable.now.name then [] else places.fault_at code (places.variable_place place.now variable.now.name) ∷ [])) }
{
    if names.contains(variable.name.as_str()) {
        return Ok(());
    }
    let place = variable_place(alloc, place, &variable.name)?;
    report_at(alloc, faults, code, &place)
}

/// The fault for each variable without a binding. The names are those of the bindings.
pub(crate) fn push_unbound_faults(
    alloc: Global,
    faults: &mut Vec<Fault>,
    code: Code,
    place: &Text,
    variables: &[Variable],
    names: &BTreeSet<&str>,
) -> Result<(), NoMemory>
    ensures { OnOk result (faults.new.items ≡ faults.old.items
        ++ map (λ v. places.fault_at code (places.variable_place place.now v.name)) (filter (λ v. not (has_name names.now v.name)) variables.now)) }
{
    for variable in variables {
        push_unbound_fault(alloc, faults, code, place, variable, names)?;
    }
    Ok(())
}
