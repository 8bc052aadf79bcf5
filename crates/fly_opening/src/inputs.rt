//! The inputs of one submission.
ghost use Rattle.std.specs.Prelude.{◌≡◌, ◌++◌, flat_map, is_none, IfOk, OnOk, string_bytes};
ghost use Rattle.fly_types.specs.Lookup.{AreVariablesSorted};
ghost use Rattle.fly_types.specs.Sound.{AreNamesSorted};
ghost use Rattle.fly_opening.specs.Lines.{submission_lines};
ghost use Rattle.fly_opening.specs.Submissions.{fitting_value, fitting_inputs, with_fitting_inputs, input_faults, variable_faults, faults_of};

use crate::lines::{push_mismatch, push_not_bound, push_not_found, push_repetition};
use fly_cast::{FitFault, fit};
use fly_docs::Submission;
use fly_types::{List, Literal, LiteralMap, NoMemory, Text, Variable, find_variable};
use std::alloc::Global;

/// A submission with those of its inputs that fit, and a line for each fault of it.
pub(crate) fn fit_submission(
    alloc: Global,
    lines: &mut String,
    variables: &List<Variable>,
    is_repeated: bool,
    submission: Submission,
) -> Result<Submission, NoMemory>
    requires variables { AreVariablesSorted variables.now }
    requires inputs { AreNamesSorted submission.inputs.entries }
    ensures lines { OnOk result (string_bytes lines.new ≡ string_bytes lines.old ++ submission_lines (faults_of variables.now is_repeated submission)) }
    ensures value { IfOk result (λ s. s ≡ with_fitting_inputs variables.now submission) }
{
    let Submission { name, inputs } = submission;
    push_repetition(lines, is_repeated, &name)?;
    let missing = missing_lines(alloc, variables.as_slice(), &name, &inputs)?;
    let inputs = fit_inputs(alloc, lines, variables, &name, inputs)?;
    lines.push_str(missing.as_str())?;
    Ok(Submission { name, inputs })
}

/// A line for each variable without a value.
fn missing_lines(
    alloc: Global,
    variables: &[Variable],
    exec: &Text,
    inputs: &LiteralMap,
) -> Result<String, NoMemory>
    requires { AreNamesSorted inputs.now.entries }
    ensures { IfOk result (λ lines. string_bytes lines ≡ submission_lines (flat_map (variable_faults inputs.now exec.now) variables.now)) }
{
    let mut lines = String::new(alloc);
    for variable in variables {
        push_missing(&mut lines, exec, inputs, variable)?;
    }
    Ok(lines)
}

/// Says that the variable has no value, where it has none.
fn push_missing(
    lines: &mut String,
    exec: &Text,
    inputs: &LiteralMap,
    variable: &Variable,
) -> Result<(), NoMemory>
    requires { AreNamesSorted inputs.now.entries }
    ensures { OnOk result (string_bytes lines.new ≡ string_bytes lines.old ++ submission_lines (variable_faults inputs.now exec.now variable.now)) }
{
    if inputs.get(&variable.name).is_none() {
        push_not_bound(lines, exec, &variable.name)?;
    }
    Ok(())
}

/// The inputs that fit, and a line for each other.
fn fit_inputs(
    alloc: Global,
    lines: &mut String,
    variables: &List<Variable>,
    exec: &Text,
    inputs: LiteralMap,
) -> Result<LiteralMap, NoMemory>
    requires { AreVariablesSorted variables.now }
    ensures lines { OnOk result (string_bytes lines.new ≡ string_bytes lines.old ++ submission_lines (flat_map (input_faults variables.now exec.now) inputs.entries)) }
    ensures value { IfOk result (λ m. m ≡ fitting_inputs variables.now inputs) }
{
    let mut fitted = Vec::with_capacity(alloc, inputs.entries.len())?;
    for (name, value) in inputs.entries.into_vec() {
        if let Some(value) = fit_input(alloc, lines, variables, exec, &name, value)? {
            fitted.push((name, value))?;
        }
    }
    Ok(LiteralMap {
        entries: List::from_vec(fitted),
    })
}

/// An input as one of its variable's type. None where there is no such, and a line that says so.
fn fit_input(
    alloc: Global,
    lines: &mut String,
    variables: &List<Variable>,
    exec: &Text,
    name: &Text,
    value: Literal,
) -> Result<Option<Literal>, NoMemory>
    requires { AreVariablesSorted variables.now }
    ensures lines { OnOk result (string_bytes lines.new ≡ string_bytes lines.old ++ submission_lines (input_faults variables.now exec.now (name.now, value))) }
    ensures value { IfOk result (λ v. v ≡ fitting_value variables.now (name.now, value)) }
{
    let Some(variable) = find_variable(variables, name) else {
        push_not_found(lines, exec, name)?;
        return Ok(None);
    };
    match fit(alloc, value, &variable.kind) {
        Ok(value) => Ok(Some(value)),
        Err(FitFault::DoesNotFit) => {
            push_mismatch(alloc, lines, exec, name, &variable.kind)?;
            Ok(None)
        }
        Err(FitFault::NoMemory) => Err(NoMemory),
    }
}
