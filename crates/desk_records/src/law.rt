// Laws: what a request that comes again gets.
ghost use Rattle.std.specs.Prelude.{◌≡◌, ℤ, List, None, find, true};
ghost use Rattle.desk_tables.specs.Changes.{changed, reply_of};
ghost use Rattle.desk_tables.specs.Tables.{Kept};
ghost use Rattle.desk_tables.specs.declared.change.Change.{Change};
ghost use Rattle.desk_requests.specs.Requests.{changes, label_of};
ghost use Rattle.desk_requests.specs.declared.ask.Request.{Request};
ghost use Rattle.desk_records.specs.Machine.{is_to, request_outcome};
ghost use Rattle.desk_records.specs.Outcomes.{Done, Told, kept_said};
ghost use Rattle.desk_records.specs.Repeats.{IsReplyTo, after};

/// A request that was accepted acts once: on any day, after any changes, it gets the reply that was
/// kept.
pub fn accepted_once()
    ensures { (request : Request) (change : Change) (later : List Change) (day today : ℤ)
        (kept : Kept) → request_outcome request day kept ≡ Done change
        → request_outcome request today (after later (changed change kept))
        ≡ Told (kept_said (reply_of change)) }
{}

/// The same of a change that more than the tables settled, with the reply that it keeps.
pub fn kept_again()
    ensures { (request : Request) (change : Change) (later : List Change) (today : ℤ)
        (kept : Kept) → changes request.ask ≡ true
        → find (is_to request.user (label_of request.id)) kept.replies ≡ None
        → IsReplyTo request (reply_of change)
        → request_outcome request today (after later (changed change kept))
        ≡ Told (kept_said (reply_of change)) }
{}
