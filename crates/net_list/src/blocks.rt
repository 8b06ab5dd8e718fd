//! The blocks between registers.

ghost use Rattle.rtl_flat.specs.Flats.{flat};
ghost use Rattle.net_list.specs.Faults.{AreAlone};

use net_model::fill::Fill;
use rtl_flat::design::Design;

/// The blocks of a design, where each assignment and each body without edges is the only one that
/// may write its bits among those of lower numbers.
#[derive(Drop)]
pub struct Blocks<'d> {
    pub design: &'d Design,
    /// What stands for bits that have no number.
    pub fill: Fill,
    pub ghost alone: { AreAlone (flat design.now) },
}
