// Laws: what is served leaves tables that the desk can start over.
ghost use Rattle.std.specs.Prelude.{ℕ, ℤ};
ghost use Rattle.desk_tables.specs.Migrations.{AreReady};
ghost use Rattle.desk_tables.specs.Tables.{Kept};
ghost use Rattle.desk_requests.specs.Replies.{Said};
ghost use Rattle.desk_requests.specs.declared.ask.Request.{Request};
ghost use Rattle.desk_sound.specs.Lawful.{IsLawful};
ghost use Rattle.desk_core.specs.Serving.{Serves};

/// Tables of version 2 that break no rule are such tables after a well formed request is served,
/// whatever it is answered.
pub fn serving_keeps_rules()
    ensures { (request : Request) (today : ℤ) (faults faults' : ℕ) (kept kept' : Kept)
        (answer : Said) → IsLawful request → AreReady kept
        → Serves request today faults faults' kept kept' answer → AreReady kept' }
{}
