// Laws: an input asks one thing, and one thing is said before its body is read.
ghost use Rattle.std.specs.Prelude.{◌≡◌, ℕ, List};
ghost use Rattle.desk_server.specs.Exchanges.{Asked, IsAsked, IsInvited};

/// Of an input at most one thing is said to be asked.
pub fn asked_once()
    ensures { (input : List ℕ) (asked other : Asked) → IsAsked input asked
        → IsAsked input other → asked ≡ other }
{}

/// Of an input at most one thing is said to be told it before its body is read.
pub fn invited_once()
    ensures { (input first other : List ℕ) → IsInvited input first → IsInvited input other
        → first ≡ other }
{}
