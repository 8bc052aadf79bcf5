//! What is wrong with an array.
ghost use Rattle.std.specs.Prelude.{◌≡◌, ◌++◌, ◌∷◌, [], if◌then◌else◌, map, filter, is_some, nat_lt, option_map, IfOk, OnOk};
ghost use Rattle.std.specs.List.{list_all};
ghost use Rattle.fly_types.specs.Levels.{max_levels, type_levels};
ghost use Rattle.fly_types.specs.Lookup.{AreVariablesSorted};
ghost use Rattle.fly_docs.specs.Bindings.{binding_of};
ghost use Rattle.fly_docs.specs.Fitting as fitting;
ghost use Rattle.fly_faults.specs.OutputTypes.{list_of_items};
ghost use Rattle.fly_compile.specs.Arrays.{holds_of_variable, is_unmapped};
ghost use Rattle.fly_faults.specs.NodeFaults as spec;
ghost use Rattle.fly_faults.specs.Places as places;
ghost use Rattle.fly_compile.specs.Scopes.{source_there};
ghost use Rattle.fly_compile.specs.Sites.{site_of};

use crate::fits::{does_array_input_fit, is_mapped};
use crate::site::Site;
use crate::sources::Sources;
use crate::{Code, Fault};
use fly_docs::Binding;
use fly_faults::{report_at, variable_place};
use fly_types::{List, LiteralType, NoMemory, Text, Variable, find_variable};
use std::alloc::Global;

fn does_its_variable_fit(
    alloc: Global,
    sources: &Sources<'_, '_>,
    variables: &List<Variable>,
    x: &Binding,
) -> Result<bool, NoMemory>
    requires { AreVariablesSorted variables.now }
    ensures { IfOk result (λ r. r ≡ holds_of_variable (fitting.array_input_fits (source_there sources.now)) variables.now x.now) }
{
    match find_variable(variables, &x.var) {
        Some(variable) => does_array_input_fit(alloc, sources, &x.bound, &variable.kind),
        None => Ok(true),
    }
}

/// Whether what is bound to each of the variables fits.
fn do_inputs_fit(
    alloc: Global,
    sources: &Sources<'_, '_>,
    variables: &List<Variable>,
    bindings: &[Binding],
) -> Result<bool, NoMemory>
    requires { AreVariablesSorted variables.now }
    ensures { IfOk result (λ r. r ≡ list_all (holds_of_variable (fitting.array_input_fits (source_there sources.now)) variables.now) bindings.now) }
{
    for x in bindings {
        if !does_its_variable_fit(alloc, sources, variables, x)? {
            return Ok(false);
        }
    }
    Ok(true)
}

fn is_its_variable_unmapped(
    alloc: Global,
    sources: &Sources<'_, '_>,
    variables: &List<Variable>,
    x: &Binding,
) -> Result<bool, NoMemory>
    requires { AreVariablesSorted variables.now }
    ensures { IfOk result (λ r. r ≡ holds_of_variable (is_unmapped (source_there sources.now)) variables.now x.now) }
{
    match find_variable(variables, &x.var) {
        Some(variable) => Ok(!is_mapped(alloc, sources, &x.bound, &variable.kind)?),
        None => Ok(true),
    }
}

/// Whether none of the variables is mapped.
fn are_inputs_unmapped(
    alloc: Global,
    sources: &Sources<'_, '_>,
    variables: &List<Variable>,
    bindings: &[Binding],
) -> Result<bool, NoMemory>
    requires { AreVariablesSorted variables.now }
    ensures { IfOk result (λ r. r ≡ list_all (holds_of_variable (is_unmapped (source_there sources.now)) variables.now) bindings.now) }
{
    for x in bindings {
        if !is_its_variable_unmapped(alloc, sources, variables, x)? {
            return Ok(false);
        }
    }
    Ok(true)
}

/// ArrayNoMapped, where all inputs are bound and fit and none is mapped.
pub(crate) fn push_unmapped_faults(
    alloc: Global,
    faults: &mut Vec<Fault>,
    site: &Site<'_, '_, '_>,
    variables: &List<Variable>,
    bindings: &[Binding],
    are_bound: bool,
) -> Result<(), NoMemory>
    requires sorted { AreVariablesSorted variables.now }
    requires bound { are_bound ≡ list_all (λ v. is_some (binding_of v.name bindings.now)) variables.now }
    ensures { OnOk result (faults.new.items ≡ faults.old.items ++ spec.unmapped_faults (site_of site.now) variables.now bindings.now) }
{
    if !are_bound {
        return Ok(());
    }
    if !do_inputs_fit(alloc, site.sources, variables, bindings)? {
        return Ok(());
    }
    if !are_inputs_unmapped(alloc, site.sources, variables, bindings)? {
        return Ok(());
    }
    report_at(alloc, faults, Code::ArrayNoMapped, &site.place)
}

/// Whether an array's list of such outputs has more levels than a type may.
fn is_too_deep(may_lack: bool, kind: &LiteralType) -> bool
    ensures { result ≡ nat_lt max_levels (type_levels (list_of_items may_lack kind.now)) }
{
    let most = if may_lack { 14 } else { 15 };
    !kind.has_at_most(most)
}

fn push_depth_fault(
    alloc: Global,
    faults: &mut Vec<Fault>,
    place: &Text,
    may_lack: bool,
    variable: &Variable,
) -> Result<(), NoMemory>
    ensures { OnOk result (faults.new.items ≡ faults.old.items
        ++ (if nat_lt max_levels (type_levels (list_of_items may_lack variable.now.kind)) then places.fault_at Code.TypeTooDeep (places.variable_place place.now variable.now.name) ∷ [] else [])) }
{
    if !is_too_deep(may_lack, &variable.kind) {
        return Ok(());
    }
    let place = variable_place(alloc, place, &variable.name)?;
    report_at(alloc, faults, Code::TypeTooDeep, &place)
}

/// TypeTooDeep for each output whose lists have more levels than a type may.
pub(crate) fn push_depth_faults(
    alloc: Global,
    faults: &mut Vec<Fault>,
    place: &Text,
    may_lack: bool,
    outputs: &[Variable],
) -> Result<(), NoMemory>
    ensures { OnOk result (faults.new.items ≡ faults.old.items
        ++ map (λ v. places.fault_at Code.TypeTooDeep (places.variable_place place.now v.name)) (filter (λ v. nat_lt max_levels (type_levels (list_of_items may_lack v.kind))) outputs.now)) }
{
    for variable in outputs {
        push_depth_fault(alloc, faults, place, may_lack, variable)?;
    }
    Ok(())
}
