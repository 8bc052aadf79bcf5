ghost use Rattle.std.specs.Prelude.{◌≡◌, ◌≤◌, ◌==◌, length, Some};
ghost use Rattle.std.specs.List.{prefix_len};
ghost use Rattle.fly_docs.specs.Templates as templates;
ghost use Rattle.fly_templates.specs.Words as spec;

use crate::inputs::Inputs;
use fly_faults::template_name;
use fly_types::Literal;

/// The template of an input with which the text begins: the value of the input, and what stands behind the template.
pub(crate) fn input_at<'a, 't>(
    text: &'t [u8],
    inputs: &Inputs<'a>,
) -> Option<(&'a Literal, &'t [u8])>
    ensures { spec.input_view result ≡ spec.input_at inputs.now text.now }
{
    let name = template_name(text)?;
    let value = inputs.get(name)?;
    Some((value, behind_template(text, name)))
}

/// What stands behind the template of this name with which the text begins.
fn behind_template<'t>(text: &'t [u8], name: &[u8]) -> &'t [u8]
    requires { templates.template_name text.now ≡ Some name.now }
    ensures { result.now ≡ spec.behind_template name.now text.now }
{
    let opened = without_spaces(&text[b"{{".len()..]);
    let named = &opened[b".inputs.".len()..];
    let closed = without_spaces(&named[name.len()..]);
    &closed[b"}}".len()..]
}

/// The text without the spaces at its front.
fn without_spaces(text: &[u8]) -> &[u8]
    ensures { result.now ≡ templates.without_spaces text.now }
{
    &text[space_count(text)..]
}

/// How many spaces the text begins with.
fn space_count(text: &[u8]) -> usize
    ensures count { result ≡ prefix_len (λ byte. byte == 32) text.now }
    ensures within { result ≤ length text.now }
{
    text.iter().take_while(|byte| **byte == b' ').count()
}
