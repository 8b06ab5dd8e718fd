//! What a clean design promises, and what a firm one does beside.

ghost use Rattle.std.specs.Prelude.{◌≡◌, []};
ghost use Rattle.rtl_flat.specs.Flats.{flat, parts};
ghost use Rattle.sign_firm.specs.Firm.{IsFirm};
ghost use Rattle.sign_firm.specs.check_clean.check_all.Findings.{AreAllFindings, IsClean};
ghost use Rattle.sign_firm.specs.check_clean.Promise.{IsPromised};
ghost use Rattle.net_clean.specs.Netlist.{HasHardware};

use net_clean::law::hardware;
use rtl_flat::design::Design;
use rtl_rule::finding::Finding;
use sign_firm::check_clean::check_laws::law::stored;
use sign_firm::check_clean::law::promised;
use sign_firm::law::{complete_by_rules, sound_by_rules};

/// The laws of clean and of firm designs, for a design with all its findings. It does nothing.
pub(crate) fn vouch(design: &Design, findings: &[Finding])
    requires { AreAllFindings (parts design.now) findings.now }
    ensures promised { IsClean findings.now → IsPromised (flat design.now) }
    ensures hardware { IsClean findings.now → HasHardware (flat design.now) }
    ensures firm { findings.now ≡ [] → IsFirm (flat design.now) }
{
    stored();
    promised();
    hardware();
    sound_by_rules();
    complete_by_rules();
}
