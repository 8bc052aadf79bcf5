//! What is wrong with the templates of inputs in the commands of tasks.
ghost use Rattle.std.specs.Prelude.{◌≡◌, ◌++◌, map, flat_map, option_to_list, OnOk, IfOk};
ghost use Rattle.std.specs.List.{All};
ghost use Rattle.fly_types.specs.Lookup.{AreVariablesSorted};
ghost use Rattle.fly_docs.specs.Form.{IsTaskInForm};
ghost use Rattle.fly_docs.specs.Templates as templates;
ghost use Rattle.fly_faults.specs.FaultList as spec;
ghost use Rattle.fly_faults.specs.TemplateFaults.{name_faults};

use crate::report::report_with;
use crate::templates::template_name;
use crate::{Code, Fault};
use fly_docs::Task;
use fly_types::{NoMemory, Text, find_variable};
use std::alloc::Global;

/// The name of the template with which the text begins.
fn name_at(alloc: Global, text: &[u8]) -> Result<Option<Text>, NoMemory>
    ensures { IfOk result (λ name. name ≡ templates.template_name text.now) }
{
    let Some(name) = template_name(text) else {
        return Ok(None);
    };
    match str::from_utf8(name) {
        Ok(name) => Ok(Some(Text::from_str(alloc, name)?)),
        Err(_) => unreachable!(),
    }
}

/// TemplateInput for the template with which the text begins, where its name is no input of the task.
fn push_template_fault(
    alloc: Global,
    faults: &mut Vec<Fault>,
    task: &Task,
    text: &[u8],
) -> Result<(), NoMemory>
    requires sorted { AreVariablesSorted task.now.interface.inputs }
    ensures { OnOk result (faults.new.items ≡ faults.old.items
        ++ name_faults task.now (option_to_list (templates.template_name text.now))) }
{
    let Some(name) = name_at(alloc, text)? else {
        return Ok(());
    };
    if find_variable(&task.interface.inputs, &name).is_some() {
        return Ok(());
    }
    report_with(alloc, faults, Code::TemplateInput, &task.id.name, name)
}

/// TemplateInput for each template in a word whose name is no input of the task.
fn push_word_faults(
    alloc: Global,
    faults: &mut Vec<Fault>,
    task: &Task,
    word: &[u8],
) -> Result<(), NoMemory>
    requires sorted { AreVariablesSorted task.now.interface.inputs }
    ensures { OnOk result (faults.new.items ≡ faults.old.items ++ name_faults task.now (templates.template_names word.now)) }
{
    for start in 0..word.len() {
        push_template_fault(alloc, faults, task, &word[start..])?;
    }
    Ok(())
}

fn push_words_faults(
    alloc: Global,
    faults: &mut Vec<Fault>,
    task: &Task,
    words: &[Text],
) -> Result<(), NoMemory>
    requires sorted { AreVariablesSorted task.now.interface.inputs }
    ensures { OnOk result (faults.new.items ≡ faults.old.items
        ++ flat_map (λ word. name_faults task.now (templates.template_names word)) words.now) }
{
    for word in words {
        push_word_faults(alloc, faults, task, word.as_str().as_bytes())?;
    }
    Ok(())
}

/// TemplateInput for each template in the command and the arguments of a task whose name is no input.
pub fn push_template_faults(
    alloc: Global,
    faults: &mut Vec<Fault>,
    task: &Task,
) -> Result<(), NoMemory>
    requires sorted { AreVariablesSorted task.now.interface.inputs }
    ensures { OnOk result (faults.new.items ≡ faults.old.items ++ spec.template_faults task.now) }
{
    push_words_faults(alloc, faults, task, task.command.as_slice())?;
    push_words_faults(alloc, faults, task, task.args.as_slice())
}
