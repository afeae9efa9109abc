//! The variables of the environment, which double quotes resolve; `source_lines` keeps them, and `lexer` asks for their values.

use crate::texts::copy_text;
use base_sequence::NoMemory;
use std::alloc::Global;

/// A variable of the environment, which double quotes resolve.
#[derive(Drop)]
pub struct Variable {
    pub name: Vec<u8>,
    pub value: Vec<u8>,
}

/// The value of a variable.
pub(crate) fn value_of<'a>(variables: &'a [Variable], name: &[u8]) -> Option<&'a [u8]> {
    for variable in variables {
        if variable.name.as_slice() == name {
            return Some(variable.value.as_slice());
        }
    }
    None
}

/// A copy of variables.
pub(crate) fn copy_variables(
    alloc: Global,
    environment: &[Variable],
) -> Result<Vec<Variable>, NoMemory> {
    let mut variables = Vec::new(alloc);
    for variable in environment {
        variables.push(Variable {
            name: copy_text(alloc, variable.name.as_slice())?,
            value: copy_text(alloc, variable.value.as_slice())?,
        })?;
    }
    Ok(variables)
}
