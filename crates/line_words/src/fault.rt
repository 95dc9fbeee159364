//! Why a line is no command.

/// Why a line is no command: it is none of the grammar's, or a number in it is outside its bounds.
#[derive(Clone, Copy)]
pub enum LineFault {
    Syntax,
    Range,
}
