//! The lines that say why submissions are refused.
ghost use Rattle.std.specs.Prelude.{◌≡◌, ◌++◌, OnOk, string_bytes};
ghost use Rattle.fly_opening.specs.Lines.{fault_line, submission_lines};
ghost use Rattle.fly_opening.specs.Submissions.{fault_where, count_faults, duplicate_id, variable_not_found, mismatched_types, not_bound};

use fly_faults::text_of_type;
use fly_types::{LiteralType, NoMemory, Text};
use std::alloc::Global;

/// The most submissions that a run takes.
const MOST_SUBMISSIONS: usize = 64;

/// Says that there are none, or too many.
pub(crate) fn push_count_lines(lines: &mut String, count: usize) -> Result<(), NoMemory>
    ensures { OnOk result (string_bytes lines.new ≡ string_bytes lines.old ++ submission_lines (count_faults count)) }
{
    if count == 0 {
        lines.push_str("submissions: NoSubmissions /\n")?;
    }
    if count > MOST_SUBMISSIONS {
        lines.push_str("submissions: TooManySubmissions /\n")?;
    }
    Ok(())
}

/// Says that an earlier execution has the name, where one has.
pub(crate) fn push_repetition(
    lines: &mut String,
    is_repeated: bool,
    exec: &Text,
) -> Result<(), NoMemory>
    ensures { OnOk result (string_bytes lines.new ≡ string_bytes lines.old ++ submission_lines (fault_where is_repeated (duplicate_id exec.now))) }
{
    if is_repeated {
        let exec = exec.as_str();
        write!(lines, "submissions: DuplicateId {exec}\n")?;
    }
    Ok(())
}

/// Says that no variable has the name.
pub(crate) fn push_not_found(lines: &mut String, exec: &Text, name: &Text) -> Result<(), NoMemory>
    ensures { OnOk result (string_bytes lines.new ≡ string_bytes lines.old ++ fault_line (variable_not_found exec.now name.now)) }
{
    let exec = exec.as_str();
    let name = name.as_str();
    write!(lines, "submissions: VariableNotFound {exec}.{name}\n")?;
    Ok(())
}

/// Says that a value doesn't fit the type of its variable.
pub(crate) fn push_mismatch(
    alloc: Global,
    lines: &mut String,
    exec: &Text,
    name: &Text,
    kind: &LiteralType,
) -> Result<(), NoMemory>
    ensures { OnOk result (string_bytes lines.new ≡ string_bytes lines.old ++ fault_line (mismatched_types exec.now name.now kind.now)) }
{
    let kind = text_of_type(alloc, kind)?;
    let kind = kind.as_str();
    let exec = exec.as_str();
    let name = name.as_str();
    write!(
        lines,
        "submissions: MismatchedTypes {exec}.{name} value to {kind}\n"
    )?;
    Ok(())
}

/// Says that a variable has no value.
pub(crate) fn push_not_bound(lines: &mut String, exec: &Text, name: &Text) -> Result<(), NoMemory>
    ensures { OnOk result (string_bytes lines.new ≡ string_bytes lines.old ++ fault_line (not_bound exec.now name.now)) }
{
    let exec = exec.as_str();
    let name = name.as_str();
    write!(lines, "submissions: NotBound {exec}.{name}\n")?;
    Ok(())
}
