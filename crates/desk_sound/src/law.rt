// Laws: what is accepted leaves the tables in order, and so does their migration.
ghost use Rattle.std.specs.Prelude.{◌≡◌, ℤ, None};
ghost use Rattle.desk_tables.specs.Changes.{changed};
ghost use Rattle.desk_tables.specs.Migrations.{AreReady, current};
ghost use Rattle.desk_tables.specs.Rules.{broken_row};
ghost use Rattle.desk_tables.specs.Tables.{Kept};
ghost use Rattle.desk_tables.specs.declared.change.Change.{Change};
ghost use Rattle.desk_requests.specs.declared.ask.Request.{Request};
ghost use Rattle.desk_sound.specs.Lawful.{IsAccepted, IsLawful};

/// Tables of version 2 that break no rule are such tables after a well formed request that is
/// accepted.
pub fn rules_kept()
    ensures { (request : Request) (today : ℤ) (kept : Kept) (change : Change)
        → IsLawful request → AreReady kept → IsAccepted request today kept change
        → AreReady (changed change kept) }
{}

/// Tables that break no rule are such tables of version 2 as the desk works with them.
pub fn migration_keeps_rules()
    ensures { (kept : Kept) → broken_row kept ≡ None → AreReady (current kept) }
{}

/// Such tables of version 2 stay as they are.
pub fn migrated_once()
    ensures { (kept : Kept) → AreReady kept → current kept ≡ kept }
{}
