//! What is left of a number that a design may have.

ghost use Rattle.std.specs.Prelude.{◌≡◌};
ghost use Rattle.elab_nodes.specs.Spares.{spared};

/// How many of so many are left behind a number of them; none where there are fewer.
pub fn spare(most: u32, count: usize) -> Option<u32>
    ensures { result ≡ spared most count }
{
    if count <= most as usize {
        Some(most - count as u32)
    } else {
        None
    }
}
