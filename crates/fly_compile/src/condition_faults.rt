//! What is wrong with the conditions of a branch.
ghost use Rattle.std.specs.Prelude.{◌≡◌, ◌++◌, ◌∷◌, [], map, filter_map, flat_map, option_map, option_to_list, codes, decimal, IfOk, OnOk};
ghost use Rattle.std.specs.List.{list_any, enumerate_from};
ghost use Rattle.fly_docs.specs.Conditions as conditions;
ghost use Rattle.fly_docs.specs.Bindings as bindings;
ghost use Rattle.fly_faults.specs.BindingFaults as faulty;
ghost use Rattle.fly_faults.specs.NodeFaults as spec;
ghost use Rattle.fly_faults.specs.Places as places;
ghost use Rattle.fly_compile.specs.Promises.{known};
ghost use Rattle.fly_compile.specs.Scopes.{source_there};
ghost use Rattle.fly_compile.specs.Sites.{site_of};
ghost use Rattle.fly_compile.specs.Branches.{condition_faults_of};

use crate::misfits::bound_primitive;
use crate::promises::{Promise, promises_of};
use crate::site::Site;
use crate::sources::Sources;
use crate::{Code, Fault};
use fly_docs::{Binding, Case};
use fly_exprs::{ExprFault, expr_fault};
use fly_faults::report_with;
use fly_types::{List, NoMemory, Simple, Text};
use std::alloc::Global;

fn push_branch_variable(
    alloc: Global,
    variables: &mut Vec<(Text, Simple)>,
    sources: &Sources<'_, '_>,
    x: &Binding,
) -> Result<(), NoMemory>
    ensures { OnOk result (variables.new.items ≡ variables.old.items
        ++ option_to_list (option_map (λ s. (x.now.var, s)) (conditions.bound_primitive (source_there sources.now) x.now.bound))) }
{
    if let Some(simple) = bound_primitive(sources, &x.bound) {
        let name = x.var.copy(alloc)?;
        variables.push((name, simple))?;
    }
    Ok(())
}

/// The inputs of a branch that conditions may name, with their primitive types.
fn branch_variables(
    alloc: Global,
    sources: &Sources<'_, '_>,
    bindings: &[Binding],
) -> Result<List<(Text, Simple)>, NoMemory>
    ensures { IfOk result (λ variables. variables ≡ conditions.branch_variables (source_there sources.now) bindings.now) }
{
    let mut variables = Vec::new(alloc);
    for x in bindings {
        push_branch_variable(alloc, &mut variables, sources, x)?;
    }
    Ok(List::from_vec(variables))
}

fn kind_text(kind: ExprFault) -> &'static str
    ensures { result.now ≡ spec.kind_text kind }
{
    match kind {
        ExprFault::UnknownVar => "UnknownVar",
        ExprFault::MixedTypes => "MixedTypes",
        ExprFault::OrderOnBoolean => "OrderOnBoolean",
    }
}

/// The number of a case, and the kind of its fault.
fn case_text(alloc: Global, number: usize, kind: ExprFault) -> Result<Text, NoMemory>
    ensures { IfOk result (λ t. t ≡ decimal number ++ codes " " ++ spec.kind_text kind) }
{
    let kind = kind_text(kind);
    Ok(Text::from_string(format!(in alloc; "{number} {kind}")?))
}

/// The first fault of a case's condition.
fn case_fault(case: &Case, variables: &List<(Text, Simple)>) -> Option<ExprFault>
    ensures { result ≡ conditions.condition_fault variables.now case.now }
{
    match &case.condition {
        Some(condition) => expr_fault(condition, variables),
        None => None,
    }
}

fn push_case_fault(
    alloc: Global,
    faults: &mut Vec<Fault>,
    variables: &List<(Text, Simple)>,
    number: usize,
    case: &Case,
    place: &Text,
) -> Result<(), NoMemory>
    ensures { OnOk result (faults.new.items ≡ faults.old.items
        ++ map (λ kind. places.fault_with Code.ExprFault place.now (decimal number ++ codes " " ++ spec.kind_text kind))
        (option_to_list (conditions.condition_fault variables.now case.now))) }
{
    let Some(kind) = case_fault(case, variables) else {
        return Ok(());
    };
    let detail = case_text(alloc, number, kind)?;
    report_with(alloc, faults, Code::ExprFault, place, detail)
}

/// ExprFault for each case whose condition has a fault.
pub(crate) fn push_case_faults(
    alloc: Global,
    faults: &mut Vec<Fault>,
    variables: &List<(Text, Simple)>,
    cases: &[Case],
    place: &Text,
) -> Result<(), NoMemory>
    ensures { OnOk result (faults.new.items ≡ faults.old.items
        ++ flat_map (λ at. map (λ kind. places.fault_with Code.ExprFault place.now (decimal at.0 ++ codes " " ++ spec.kind_text kind))
        (option_to_list (conditions.condition_fault variables.now at.1))) (enumerate_from 0 cases.now)) }
{
    for (number, case) in cases.iter().enumerate() {
        push_case_fault(alloc, faults, variables, number, case, place)?;
    }
    Ok(())
}

fn has_anything(promises: &[Promise<'_>]) -> bool
    ensures { result ≡ list_any (λ promise. faulty.is_anything (known promise).1) promises.now }
{
    promises.iter().any(|promise| promise.origin.is_anything())
}

/// Whether a promise of anything is bound.
fn bind_anything<'a>(
    alloc: Global,
    sources: &Sources<'_, 'a>,
    inputs: &'a [Binding],
) -> Result<bool, NoMemory>
    ensures { IfOk result (λ r. r ≡ list_any (λ x. list_any (λ promise. faulty.is_anything (source_there sources.now promise)) (bindings.promises_of x.bound)) inputs.now) }
{
    for x in inputs {
        let promises = promises_of(alloc, sources, &x.bound)?;
        if has_anything(&promises) {
            return Ok(true);
        }
    }
    Ok(false)
}

/// ExprFault for each case whose condition has a fault, where no binding has one and all inputs are of a known type.
pub(crate) fn push_condition_faults<'a>(
    alloc: Global,
    faults: &mut Vec<Fault>,
    site: &Site<'_, '_, 'a>,
    inputs: &'a [Binding],
    cases: &[Case],
    are_sound: bool,
) -> Result<(), NoMemory>
    requires { are_sound ≡ spec.is_empty (faulty.bindings_faults (site_of site.now) inputs.now) }
    ensures { OnOk result (faults.new.items ≡ faults.old.items ++ condition_faults_of (site_of site.now) inputs.now cases.now) }
{
    if !are_sound {
        return Ok(());
    }
    if bind_anything(alloc, site.sources, inputs)? {
        return Ok(());
    }
    let variables = branch_variables(alloc, site.sources, inputs)?;
    push_case_faults(alloc, faults, &variables, cases, &site.place)
}
