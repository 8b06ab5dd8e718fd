// How much names take.

ghost use Rattle.std.specs.Prelude.{◌≡◌, ◌+◌, ◌-◌, ◌^◌, map, min};
ghost use Rattle.std.specs.Option.{option_map};
ghost use Rattle.elab_sizes.specs.Sizes.{identifier_size, if_any, sizes};
ghost use Rattle.rtl_tree.specs.TreeExpr.{identifier};

use rtl_tree::tree::names::Name;

/// A node with what stands in it; numbers stop at the greatest u32.
pub(crate) fn node(inner: u32) -> u32
    ensures { result ≡ min (1 + inner) (2 ^ 32 - 1) }
{
    inner.saturating_add(1)
}

pub(crate) fn name_size(name: &Name) -> u32
    ensures { result ≡ min (identifier_size (identifier name.now)) (2 ^ 32 - 1) }
{
    node(u32::try_from(name.text.as_bytes().len()).unwrap_or(u32::MAX))
}

pub(crate) fn names_size(all: &[Name]) -> u32
    ensures { result ≡ min (sizes identifier_size (map identifier all.now)) (2 ^ 32 - 1) }
{
    let mut sum: u32 = 0;
    for name in all {
        sum = sum.saturating_add(name_size(name));
    }
    sum
}

/// Of a name that may be left out.
pub(crate) fn optional_name_size(name: &Option<Name>) -> u32
    ensures { result ≡ min (if_any identifier_size (option_map identifier name.now)) (2 ^ 32 - 1) }
{
    match name {
        Some(name) => name_size(name),
        None => 0,
    }
}
