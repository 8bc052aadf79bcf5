/// What a command came to. The process ends with its number, from 0 on.
#[derive(Clone, Copy, Debug, PartialEq, Eq)]
pub enum Status {
    /// The command answered.
    Done,
    /// An execution failed, or a journal isn't legal.
    Failed,
    /// The words are no command.
    Usage,
    /// A document was refused.
    Refused,
    /// A file that must be there could not be read.
    ReadFault,
    /// A file or a stream could not be written.
    WriteFault,
    NoMemory,
    /// A journal or a catalog file is damaged.
    Damaged,
}
