//! Which names are renamed, and how.

ghost use Rattle.std.specs.Prelude.{◌≡◌, IfOk, map};
ghost use Rattle.std.specs.Option.{option_map};
ghost use Rattle.rtl_tree.specs.TreeExpr.{identifier};
ghost use Rattle.elab_renames.specs.Renames.{renamed_identifier, renaming};

use elab_scope::names::Names;
use rtl_tree::tree::names::Name;
use std::alloc::Global;
use text_ground::memory::Memory;
use text_ground::text::Text;

/// The names that a generate block declares, and what they have before them outside it.
#[derive(Clone, Copy)]
pub struct Naming<'a> {
    /// What the names of the block stand for; those that are declared here are renamed.
    pub names: &'a Names,
    /// The name of the block with the dot behind it.
    pub component: &'a Text,
}

/// What stands in the place of a name.
#[tactic(auto, unfolding(crate::specs::Renames::named))]
fn renamed_text(alloc: Global, naming: &Naming<'_>, name: &Text) -> Result<Text, Memory>
    ensures { IfOk result (λ made. made ≡ renaming naming.now name.now) }
{
    if naming.names.find(name).is_none() {
        return Ok(Text::from_bytes(alloc, name.as_bytes())?);
    }
    let mut bytes = Vec::from_slice(alloc, naming.component.as_bytes())?;
    bytes.extend_from_slice(name.as_bytes())?;
    Ok(Text::from_vec(bytes))
}

/// A name of the module itself.
pub(crate) fn renamed_name(alloc: Global, naming: &Naming<'_>, name: &Name) -> Result<Name, Memory>
    ensures { IfOk result (λ made. identifier made
        ≡ renamed_identifier (renaming naming.now) (identifier name.now)) }
{
    Ok(Name {
        text: renamed_text(alloc, naming, &name.text)?,
        at: name.at,
    })
}

/// Names of the module itself.
pub(crate) fn renamed_names(
    alloc: Global,
    naming: &Naming<'_>,
    names: &[Name],
) -> Result<Vec<Name>, Memory>
    ensures { IfOk result (λ made. map identifier made.items
        ≡ map (renamed_identifier (renaming naming.now)) (map identifier names.now)) }
{
    let mut made = Vec::with_capacity(alloc, names.len())?;
    for name in names {
        made.push(renamed_name(alloc, naming, name)?)?;
    }
    Ok(made)
}

/// A name that isn't one of the module itself.
pub(crate) fn same_name(alloc: Global, name: &Name) -> Result<Name, Memory>
    ensures { IfOk result (λ made. identifier made ≡ identifier name.now) }
{
    let text = Text::from_bytes(alloc, name.text.as_bytes())?;
    Ok(Name { text, at: name.at })
}

/// The label of a block, where it has one.
pub(crate) fn same_label(alloc: Global, label: &Option<Name>) -> Result<Option<Name>, Memory>
    ensures { IfOk result (λ made. option_map identifier made ≡ option_map identifier label.now) }
{
    match label {
        None => Ok(None),
        Some(name) => Ok(Some(same_name(alloc, name)?)),
    }
}
