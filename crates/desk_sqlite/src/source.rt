// Where a keeper has its connection from.
ghost use Rattle.std.specs.Prelude.{◌≡◌, Some, None, IsErr, MatchOption};

use sqlite::{Alter, Connection, Error, ErrorCode, File, FileStore};

/// The path of the database file.
pub const DATABASE: &str = "desk.db";

/// What opens the database of a keeper, which asks for it once.
pub trait Source {
    /// What the database stands in.
    type Store: Alter + Drop;

    /// A connection to the database.
    fn open(&mut self) -> Result<Connection<Self::Store>, Error>;
}

/// The database in the file [`DATABASE`], which is made where there is none.
pub struct InFile<'a> {
    pub runtime: &'a HostRuntime,
}

impl Drop for InFile<'_> {
    fn drop(self) {
        let InFile { runtime: _ } = self;
    }
}

impl Source for InFile<'_> {
    type Store = FileStore<File>;

    fn open(&mut self) -> Result<Connection<FileStore<File>>, Error> {
        Connection::open(self.runtime, DATABASE)
    }
}

/// A connection that is open already, and is handed on once.
#[derive(Drop)]
pub struct Adopted<S: Alter + Drop> {
    connection: Option<Connection<S>>,
}

impl<S: Alter + Drop> Adopted<S> {
    /// Hands this connection on.
    pub fn new(connection: Connection<S>) -> Self
        ensures { result.connection ≡ Some connection }
    {
        Adopted {
            connection: Some(connection),
        }
    }
}

impl<S: Alter + Drop> Source for Adopted<S> {
    type Store = S;

    fn open(&mut self) -> Result<Connection<S>, Error>
        ensures handed { MatchOption self.old.connection (IsErr result) (λ held. result ≡ Ok held) }
        ensures once { self.new.connection ≡ None }
    {
        match self.connection.take() {
            Some(connection) => Ok(connection),
            None => Err(Error::SqliteFailure(ErrorCode::CannotOpen)),
        }
    }
}
