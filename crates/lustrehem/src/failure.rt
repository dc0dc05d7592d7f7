// Why the program ends with status 1.
use std::alloc::AllocError;
use std::io;
use thiserror::Error;
use words::refusal::Refusal;

#[derive(Debug, Drop, Error)]
pub(crate) enum Failure {
    #[error("unknown arguments; lustrehem --help lists what there is")]
    Usage,
    // A file that is no script or no card image.
    #[error("{0}: {1}")]
    File(String, Unfit),
    // So many lines of the script were not understood.
    #[error("{0} {were} not understood", were = if *.0 == 1 {"line was"} else {"lines were"})]
    NotUnderstood(usize),
    // The check of the image refused it.
    #[error("the image is refused")]
    Image,
    // So many messages of the image were refused.
    #[error("{0} {are} refused", are = if *.0 == 1 {"message is"} else {"messages are"})]
    Messages(usize),
    // The built-in task was not carried out.
    #[error(transparent)]
    Task(#[from] anyhow::Error),
    #[error("out of memory")]
    Memory(#[from] AllocError),
    // Standard input or output failed.
    #[error(transparent)]
    System(#[from] io::Error),
}

// What is wrong with a file.
#[derive(Debug, Drop, Error)]
pub(crate) enum Unfit {
    #[error(transparent)]
    Unreadable(#[from] io::Error),
    #[error("the file is empty")]
    Empty,
    // It has more bytes than this.
    #[error("the file has more than {0} bytes")]
    Large(usize),
    // It is not made of pages of 512 bytes.
    #[error("refused, {}: the file is no multiple of 512 bytes", Refusal::Memory)]
    NotPages,
}
