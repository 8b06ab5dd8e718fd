// What a request comes to.

use desk_requests::Reply;
use desk_tables::Change;

/// What a request comes to.
#[derive(Drop)]
pub enum Decision {
    /// It is answered, and the tables stay.
    Tells(Reply),
    /// It is accepted: the tables change, and its reply is kept.
    Makes(Change),
    /// The tables alone don't settle it.
    Open,
}
