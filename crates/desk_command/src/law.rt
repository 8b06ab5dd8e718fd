// Laws of what the desk serves: a sign-off that is told to be clean is, and few replies say that the
// service is unavailable.
ghost use Rattle.std.specs.Prelude.{ℕ, List};
ghost use Rattle.desk_tables.specs.Tables.{Kept};
ghost use Rattle.desk_links.specs.Doors.{Ended};
ghost use Rattle.desk_requests.specs.Replies.{Said};
ghost use Rattle.desk_requests.specs.declared.ask.Request.{Request};
ghost use Rattle.desk_core.specs.Headline.{IsNewSignOff, IsSignedClean, SaysClean};
ghost use Rattle.desk_core.specs.Serving.{ServesRightly};
ghost use Rattle.desk_server.specs.Exchanges.{Around, Asks, IsAsked, IsReply};
ghost use Rattle.desk_server.specs.Servings.{Run, served_of};
ghost use Rattle.desk_command.specs.Servings.{AreFew};

/// The headline. Where an input asks for a sign-off of a module, and no reply is kept for it, and
/// the reply says that it was accepted with the grade `clean`, the module is signed clean: what
/// simulation shows of it is what its hardware shows.
pub fn signed_clean()
    ensures { (input : List ℕ) (before after : Around) (kept later : Kept) (answer : Said)
        (request : Request) (top : List ℕ)
        → IsReply ServesRightly input before after kept later answer
        → IsAsked input (Asks request) → IsNewSignOff request kept top → SaysClean answer
        → IsSignedClean kept top }
{}

/// No more links of a run get a reply of the status 503 than the clock's and the keeper's counts of
/// faults rose by, over tables that break no rule, where neither count ends at the last value of a
/// `u64`.
pub fn few_unavailable()
    ensures { (inputs : List (List ℕ)) (links : List Ended) (before after : Around)
        (kept kept' : Kept) (run : Run ServesRightly inputs links before after kept kept')
        → AreFew (served_of run) before after kept }
{}
