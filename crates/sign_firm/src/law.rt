//! What a design without findings of either grade is.

ghost use Rattle.rtl_flat.specs.Flats.{Parts};
ghost use Rattle.sign_firm.specs.Firm.{CompleteByRules, SoundByRules};

use check_clean::law::fulfilled;

/// Simulation of it is sound for synthesis: from wherever inputs and registers with a reset are known, each bit that is
/// known after lawful steps is the number's, whatever the unknown bits are taken for.
pub fn sound_by_rules()
    ensures { (d : Parts) → SoundByRules d }
{
    fulfilled();
}

/// And each such state has numbers, whatever the unknown bits of its registers and of its closed latches are taken for.
pub fn complete_by_rules()
    ensures { (d : Parts) → CompleteByRules d }
{}
