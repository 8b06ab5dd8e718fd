// What the files do with a change.
ghost use Rattle.std.specs.Prelude.{◌≡◌, List, IfOk};
ghost use Rattle.source_file.specs.declared.SourceFile.{SourceFile};
ghost use Rattle.desk_core.specs.Files.{files_changed};
ghost use Rattle.desk_core.specs.Steps.{CanFollow, IsSameStore, IsShortChange, files_next};

use design_db::{Db, Ready};
use desk_tables::Change;
use std::alloc::Global;
use text_ground::memory::Memory;
use text_ground::text::Text;

// What follows for the files once a change is made. It needs no memory then.
#[derive(Drop)]
pub(crate) enum Next {
    Puts(Ready),
    Drops(Text),
    Stays,
}

// What follows for the files from a change. Files and answers stay till then.
pub(crate) fn next_of(alloc: Global, db: &mut Db, change: &Change) -> Result<Next, Memory>
    requires { IsShortChange change.now }
    ensures next { IfOk result (λ next.
        (files : List SourceFile) → files_next next files ≡ files_changed change.now files) }
    ensures room { IfOk result (λ next. CanFollow next db.new.room) }
    ensures same { IsSameStore db.old db.new }
{
    match change {
        Change::PutFile(row, _) => Ok(Next::Puts(db.ready(&row.name, &row.text)?)),
        Change::DropFile(name, _) => Ok(Next::Drops(Text::from_bytes(alloc, name.as_bytes())?)),
        Change::Grant(_, _) | Change::Revoke(_, _, _) | Change::SignOff(_, _) => Ok(Next::Stays),
    }
}

// Does it.
pub(crate) fn follow(db: &mut Db, next: Next)
    requires { CanFollow next db.old.room }
    ensures files { db.new.files ≡ files_next next db.old.files }
    ensures rulings { db.new.rulings ≡ db.old.rulings }
    ensures absent { db.new.absent ≡ db.old.absent }
{
    match next {
        Next::Puts(ready) => db.put_ready(ready),
        Next::Drops(name) => {
            db.drop_file(&name);
        }
        Next::Stays => {}
    }
}
