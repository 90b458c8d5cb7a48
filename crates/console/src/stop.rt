// Why a command ends without an answer.
use std::io;
use thiserror::Error;

#[derive(Debug, Drop, Error)]
pub enum Stop {
    // What is wrong with the call or with a file has been said.
    #[error("there is nothing more to say")]
    Said,
    // Standard output cannot be written, or the memory is out.
    #[error("{0}")]
    Io(#[from] io::Error),
}
