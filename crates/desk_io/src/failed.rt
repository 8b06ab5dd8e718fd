use thiserror::Error;

/// The outside failed at a call. The object that answered has counted it.
#[derive(Clone, Copy, Debug, PartialEq, Eq, Error)]
#[error("the outside failed")]
pub struct Failed;
