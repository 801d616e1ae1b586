//! The inputs of a plan: the files that are fetched, in order, and what each is for.

ghost use Rattle.std.specs.Prelude.{◌≡◌, ◌++◌, IfOk, OnOk, map};
ghost use Rattle.fst_words.specs.Inputs.{input_seen, is_one_file, option_input, option_inputs, own_inputs, plan_inputs, table_inputs};

use crate::form::{Role, form_of};
use crate::name::Name;
use crate::options::Options;
use crate::plan::Plan;
use std::alloc::{AllocError, Global};

/// An input: the name of a file, and what it is for.
#[derive(Clone, Copy)]
pub struct Input<'p> {
    /// The name.
    pub name: &'p Name,
    /// What it is for.
    pub role: Role,
}

/// Adds the file of an option, where the option stands.
fn add_option<'p>(
    inputs: &mut Vec<Input<'p>>,
    role: Role,
    option: &'p Option<Name>,
) -> Result<(), AllocError>
    ensures { OnOk result (map input_seen inputs.new.items ≡ map input_seen inputs.old.items ++ option_input role option.entry.now) }
{
    if let Some(name) = option {
        inputs.push(Input { name, role })?;
    }
    Ok(())
}

/// Whether both options stand, and name the same file.
fn is_one_file(first: &Option<Name>, second: &Option<Name>) -> bool
    ensures { result ≡ is_one_file first.entry.now second.entry.now }
{
    match (first, second) {
        (Some(first), Some(second)) => first.text() == second.text(),
        _ => false,
    }
}

/// Adds the files of the symbol tables. One that both options name is one input, so that it is fetched, read and held once.
fn add_tables<'p>(inputs: &mut Vec<Input<'p>>, options: &'p Options) -> Result<(), AllocError>
    ensures { OnOk result (map input_seen inputs.new.items ≡ map input_seen inputs.old.items ++ table_inputs options.entry.now.isymbols options.entry.now.osymbols) }
{
    if is_one_file(&options.isymbols, &options.osymbols) {
        add_option(inputs, Role::BothSymbols, &options.isymbols)
    } else {
        add_option(inputs, Role::InputSymbols, &options.isymbols)?;
        add_option(inputs, Role::OutputSymbols, &options.osymbols)
    }
}

/// The files of the options.
fn option_files<'p>(alloc: Global, options: &'p Options) -> Result<Vec<Input<'p>>, AllocError>
    ensures { IfOk result (λ v. map input_seen v.items ≡ option_inputs options.entry.now) }
{
    let mut inputs = Vec::new(alloc);
    add_tables(&mut inputs, options)?;
    add_option(&mut inputs, Role::InputPairs, &options.relabel_ipairs)?;
    add_option(&mut inputs, Role::OutputPairs, &options.relabel_opairs)?;
    Ok(inputs)
}

impl Plan {
    /// The inputs, in the order in which they are read: the files of the options come first.
    pub fn inputs(&self, alloc: Global) -> Result<Vec<Input<'_>>, AllocError>
        ensures { IfOk result (λ v. map input_seen v.items ≡ plan_inputs self.now) }
    {
        let shape = form_of(self.command).shape;
        let mut inputs = option_files(alloc, &self.options)?;
        for place in 0..self.input_count() {
            let role = shape.role(place);
            inputs.push(Input {
                name: self.input(place),
                role,
            })?;
        }
        Ok(inputs)
    }
}
