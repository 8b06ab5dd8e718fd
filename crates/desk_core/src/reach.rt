// What is told of a module's reach.
ghost use Rattle.std.specs.Prelude.{◌≡◌, option_copied, IfOk};
ghost use Rattle.desk_tables.specs.Tables.{kept_of};
ghost use Rattle.desk_records.specs.Outcomes.{outcome};
ghost use Rattle.design_db.specs.Stores.{answer_of};
ghost use Rattle.desk_core.specs.Files.{AreFilesOf};
ghost use Rattle.desk_core.specs.Reaches.{IsReached, reach_asked, reach_with};

use design_db::{Answer, Db};
use desk_records::{Decision, Records};
use desk_requests::Ask;
use desk_rulings::{no_reach, reach_outcome};
use desk_tables::Tables;
use std::alloc::Global;
use text_ground::memory::Memory;
use text_ground::text::Text;

// The module whose reach is asked for.
pub(crate) fn reach_asked(ask: &Ask) -> Option<&Text>
    ensures { option_copied result ≡ reach_asked ask.now }
{
    match ask {
        Ask::Reach(top) => Some(top),
        _ => None,
    }
}

// What is told by the answer that is known, where one is.
fn reach_with(
    alloc: Global,
    tables: &Tables,
    top: &Text,
    answer: Option<&Answer>,
) -> Result<Decision, Memory>
    ensures { IfOk result (λ made. outcome made
        ≡ reach_with top.now (kept_of tables.now) (option_copied answer.entry)) }
{
    match answer {
        None => no_reach(alloc, false),
        Some(answer) => match answer {
            Answer::Ruled(_, reached) => reach_outcome(alloc, tables, top, reached),
            Answer::Refused(_) => no_reach(alloc, true),
        },
    }
}

// What a request for a module's reach comes to. Nothing is worked out for it.
pub(crate) fn reach(
    alloc: Global,
    records: &Records,
    db: &Db,
    top: &Text,
) -> Result<Decision, Memory>
    requires { AreFilesOf records.now.files db.now.files }
    ensures is { IfOk result (λ made.
        outcome made ≡ reach_with top.now records.now (answer_of db.now top.now)) }
    ensures fresh { IfOk result (λ made. IsReached top.now records.now (outcome made)) }
{
    reach_with(alloc, records.tables(), top, db.answer(top))
}
