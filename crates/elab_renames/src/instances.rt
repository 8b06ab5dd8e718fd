// Copies of instances.

ghost use Rattle.std.specs.Prelude.{◌≡◌, IfOk, map};
ghost use Rattle.rtl_tree.specs.TreeItem as tree;
ghost use Rattle.rtl_tree.specs.TreeItem.{associated, association, instantiation, positional};
ghost use Rattle.elab_renames.specs.Renames.{renamed_associated, renamed_association, renamed_instantiation, renamed_positional, renaming};

use crate::expressions::renamed_value;
use crate::naming::{Naming, renamed_name, same_name};
use rtl_tree::tree::item::{Arguments, Instance, NamedArgument, OrderedArgument};
use std::alloc::Global;
use text_ground::memory::Memory;

fn renamed_ordered(
    alloc: Global,
    naming: &Naming<'_>,
    argument: &OrderedArgument,
) -> Result<OrderedArgument, Memory>
    ensures { IfOk result (λ made. positional made
        ≡ renamed_positional (renaming naming.now) (positional argument.now)) }
{
    let value = renamed_value(alloc, naming, &argument.value)?;
    Ok(OrderedArgument {
        at: argument.at,
        value,
    })
}

fn by_position(
    alloc: Global,
    naming: &Naming<'_>,
    arguments: &[OrderedArgument],
) -> Result<Arguments, Memory>
    ensures { IfOk result (λ made. association made ≡ renamed_association (renaming naming.now)
        (tree.ByPosition (map positional arguments.now))) }
{
    let mut made = Vec::with_capacity(alloc, arguments.len())?;
    for argument in arguments {
        made.push(renamed_ordered(alloc, naming, argument)?)?;
    }
    Ok(Arguments::Ordered(made))
}

/// An argument by name, which is a name of the instance's module.
fn renamed_named(
    alloc: Global,
    naming: &Naming<'_>,
    argument: &NamedArgument,
) -> Result<NamedArgument, Memory>
    ensures { IfOk result (λ made. associated made
        ≡ renamed_associated (renaming naming.now) (associated argument.now)) }
{
    let name = same_name(alloc, &argument.name)?;
    let value = renamed_value(alloc, naming, &argument.value)?;
    Ok(NamedArgument {
        at: argument.at,
        name,
        value,
    })
}

fn by_name(
    alloc: Global,
    naming: &Naming<'_>,
    arguments: &[NamedArgument],
) -> Result<Arguments, Memory>
    ensures { IfOk result (λ made. association made ≡ renamed_association (renaming naming.now)
        (tree.ByName (map associated arguments.now))) }
{
    let mut made = Vec::with_capacity(alloc, arguments.len())?;
    for argument in arguments {
        made.push(renamed_named(alloc, naming, argument)?)?;
    }
    Ok(Arguments::Named(made))
}

pub(crate) fn renamed_arguments(
    alloc: Global,
    naming: &Naming<'_>,
    arguments: &Arguments,
) -> Result<Arguments, Memory>
    ensures { IfOk result (λ made. association made
        ≡ renamed_association (renaming naming.now) (association arguments.now)) }
{
    match arguments {
        Arguments::Ordered(arguments) => by_position(alloc, naming, arguments),
        Arguments::Named(arguments) => by_name(alloc, naming, arguments),
    }
}

fn renamed_instance(
    alloc: Global,
    naming: &Naming<'_>,
    instance: &Instance,
) -> Result<Instance, Memory>
    ensures { IfOk result (λ made. instantiation made
        ≡ renamed_instantiation (renaming naming.now) (instantiation instance.now)) }
{
    let name = renamed_name(alloc, naming, &instance.name)?;
    let connections = renamed_arguments(alloc, naming, &instance.connections)?;
    Ok(Instance { name, connections })
}

pub(crate) fn renamed_instances(
    alloc: Global,
    naming: &Naming<'_>,
    instances: &[Instance],
) -> Result<Vec<Instance>, Memory>
    ensures { IfOk result (λ made. map instantiation made.items
        ≡ map (renamed_instantiation (renaming naming.now)) (map instantiation instances.now)) }
{
    let mut made = Vec::with_capacity(alloc, instances.len())?;
    for instance in instances {
        made.push(renamed_instance(alloc, naming, instance)?)?;
    }
    Ok(made)
}
