// What a request asks for.
ghost use Rattle.std.specs.Prelude.{◌≡◌};
ghost use Rattle.desk_requests.specs.Requests.{changes, label_of};

use desk_tables::{Day, Digest, Name, WaiverId};
use rtl_rule::rule::Rule;
use text_ground::text::Text;

/// The waiver that is asked for.
#[derive(Drop)]
pub struct WaiverAsk {
    pub last_day: Day,
    pub owner: Name,
    /// Where the finding is: `file:line:column`.
    pub place: Text,
    pub reason: Text,
    pub rule: Rule,
    /// The path of the finding's signal, or of its instance.
    pub target: Text,
    pub top: Text,
}

/// What is asked for. Files go by their names, modules by theirs, and waivers by their numbers.
#[derive(Drop)]
pub enum Ask {
    /// The file of this name gets this text.
    PutFile(Text, Text),
    GetFile(Text),
    /// The text of a file.
    FileText(Text),
    /// All files.
    Files,
    DropFile(Text),
    /// What the rules say of a module.
    Ruling(Text),
    /// Whether that is known of a module, and which files it rests on.
    Reach(Text),
    /// A sign-off of a module.
    SignOff(Text),
    /// All sign-offs.
    SignOffs,
    Waive(WaiverAsk),
    /// All waivers.
    Waivers,
    Revoke(WaiverId),
}

/// A request that is well formed.
#[derive(Drop)]
pub struct Request {
    pub user: Name,
    /// What the user calls the request; None where it changes nothing.
    pub id: Option<Text>,
    /// What tells a request from another that has the same user and name.
    pub digest: Digest,
    pub ask: Ask,
}

impl Ask {
    /// Whether the tables change where it is accepted.
    pub fn changes(&self) -> bool
        ensures { result ≡ changes self.now }
    {
        match self {
            Ask::PutFile(_, _)
            | Ask::DropFile(_)
            | Ask::SignOff(_)
            | Ask::Waive(_)
            | Ask::Revoke(_) => true,
            Ask::GetFile(_)
            | Ask::FileText(_)
            | Ask::Files
            | Ask::Ruling(_)
            | Ask::Reach(_)
            | Ask::SignOffs
            | Ask::Waivers => false,
        }
    }
}

impl Request {
    /// What the user calls the request; empty where that isn't told.
    pub fn label(&self) -> &[u8]
        ensures { result.now ≡ label_of self.now.id }
    {
        match &self.id {
            Some(label) => label.as_bytes(),
            None => b"",
        }
    }
}
