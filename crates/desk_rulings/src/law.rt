// Laws: what is accepted keeps a reply to its request; what stands by the tables, stands by the book;
// and sites have the keys of findings.
ghost use Rattle.std.specs.Prelude.{◌≡◌, ◌∷◌, [], ℕ, ℤ, List, None, Some, option_map};
ghost use Rattle.rtl_rule.specs.Keys.{IsKey};
ghost use Rattle.source_file.specs.SourceFiles.{names_in};
ghost use Rattle.source_file.specs.declared.SourceFile.{SourceFile};
ghost use Rattle.desk_rows.specs.declared.Row.{Row};
ghost use Rattle.desk_tables.specs.Changes.{reply_of};
ghost use Rattle.desk_tables.specs.Rules.{broken_row};
ghost use Rattle.desk_tables.specs.Tables.{Kept};
ghost use Rattle.desk_tables.specs.declared.change.Change.{Change};
ghost use Rattle.desk_tables.specs.declared.rows.FileRow.{FileRow};
ghost use Rattle.waiver_book.specs.Books.{refusal, standing};
ghost use Rattle.desk_requests.specs.declared.ask.Request.{Request};
ghost use Rattle.desk_requests.specs.declared.ask.WaiverAsk.{WaiverAsk};
ghost use Rattle.desk_records.specs.Outcomes.{Done};
ghost use Rattle.desk_records.specs.Repeats.{IsReplyTo};
ghost use Rattle.desk_rulings.specs.Books.{book_of};
ghost use Rattle.desk_rulings.specs.Grants.{refused_at, waive_outcome, waiver_of};
ghost use Rattle.desk_rulings.specs.Rulings.{Site, Verdict, site_of, standing_in};
ghost use Rattle.desk_rulings.specs.SignOffs.{signoff_outcome};

/// A waiver that is granted keeps a reply to the request for it.
pub fn granted_reply()
    ensures { (ask : WaiverAsk) (request : Request) (today : ℤ) (kept : Kept) (verdict : Verdict)
        (change : Change) → waive_outcome ask request today kept verdict ≡ Done change
        → IsReplyTo request (reply_of change) }
{}

/// A sign-off that is accepted keeps a reply to the request for it.
pub fn signed_reply()
    ensures { (top : List ℕ) (request : Request) (today : ℤ) (kept : Kept) (verdict : Verdict)
        (change : Change) → signoff_outcome top request today kept verdict ≡ Done change
        → IsReplyTo request (reply_of change) }
{}

/// Where no row breaks a rule of the tables, the waiver that stands is that of the book: the least
/// number.
pub fn least_number()
    ensures { (kept : Kept) (site : Site) (today : ℤ) → broken_row kept ≡ None
        → option_map (λ found. found.0) (standing_in today kept.waivers site)
        ≡ standing site.key site.digest today (book_of kept.waivers) }
{}

/// There the refusals of a waiver are those of the book.
pub fn books_refusal()
    ensures { (kept : Kept) (site : Site) (ask : WaiverAsk) (request : Request) (today : ℤ)
        → broken_row kept ≡ None → refused_at site ask request today kept.waivers
        ≡ refusal (waiver_of ask site) (site.key ∷ []) today request.user (book_of kept.waivers) }
{}

/// The key of a site is the one by which its finding is known across edits.
pub fn named_key()
    ensures { (rows : List FileRow) (files : List SourceFile) (one : Row) (site : Site)
        → site_of rows files one ≡ Some site
        → IsKey one.told.target (names_in files) one.finding site.key }
{}
