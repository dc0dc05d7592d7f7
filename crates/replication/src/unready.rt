// Why a list of calls is not begun.
#[derive(Clone, Copy, PartialEq, Eq, Debug)]
pub enum Unready {
    // Too little room for the answers.
    Answers,
    // Messages wait in the mailbox.
    Mailbox,
    // A table of no places, or of more than 16.
    Table,
}
