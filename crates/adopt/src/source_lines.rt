//! The lines of a file with their words; `adoption` calls `read_lines`.

ghost use Rattle.std.specs.Prelude.{◌≡◌, IfOk};
ghost use Rattle.adopt.specs.Lines as spec;
ghost use Rattle.adopt.specs.Lines.{own_lines, own_raws, texts_of};

use crate::lexer::{SourceLine, read_line};
use crate::texts::copy_text;
use crate::variables::{Variable, copy_variables, value_of};
use base_lines::{Parts, without_cr};
use base_sequence::NoMemory;
use std::alloc::Global;

/// Notes a variable that a line of `global` sets.
fn note_variable(
    alloc: Global,
    line: &SourceLine,
    variables: &mut Vec<Variable>,
) -> Result<(), NoMemory> {
    let [keyword, name, value] = line.words.as_slice() else {
        return Ok(());
    };
    let presets = keyword.as_slice() == b"presetenv".as_slice();
    if keyword.as_slice() != b"setenv".as_slice() && !presets {
        return Ok(());
    }
    if value_of(variables.as_slice(), name.as_slice()).is_some() && presets {
        return Ok(());
    }
    let variable = Variable {
        name: copy_text(alloc, name.as_slice())?,
        value: copy_text(alloc, value.as_slice())?,
    };
    variables.insert(0, variable)?;
    Ok(())
}

/// Whether a part is an empty one behind the last line end.
fn is_end(part: &[u8], parts: &Parts<'_>) -> bool
    ensures { result ≡ spec.is_end part.now parts.now }
{
    part.is_empty() && parts.is_done()
}

/// The lines of a text, without their ends.
fn split_lines(alloc: Global, text: &[u8]) -> Result<Vec<Vec<u8>>, NoMemory>
    ensures { IfOk result (λ lines. texts_of lines.items ≡ own_lines text.now) }
{
    let mut parts = Parts::new(text, b'\n');
    let mut lines = Vec::new(alloc);
    while let Some(part) = parts.next() {
        if is_end(part, &parts) {
            return Ok(lines);
        }
        lines.push(copy_text(alloc, without_cr(part))?)?;
    }
    Ok(lines)
}

/// The lines of a file with their words, by these variables and those that its lines `setenv` and `presetenv` set.
pub(crate) fn read_lines(
    alloc: Global,
    text: &[u8],
    environment: &[Variable],
) -> Result<Vec<SourceLine>, NoMemory>
    ensures { IfOk result (λ lines. own_raws lines.items ≡ own_lines text.now) }
{
    let mut variables = copy_variables(alloc, environment)?;
    let raws = split_lines(alloc, text)?;
    let mut lines = Vec::new(alloc);
    for raw in &raws {
        let line = read_line(alloc, raw.as_slice(), variables.as_slice())?;
        note_variable(alloc, &line, &mut variables)?;
        lines.push(line)?;
    }
    Ok(lines)
}
