use script::error_line::ErrorLine;

/// What is told of a script that was played: what was said, and the line that ended it, if one is wrong.
#[derive(Drop)]
pub(crate) struct Account {
    pub(crate) said: String,
    pub(crate) wrong: Option<ErrorLine>,
}
