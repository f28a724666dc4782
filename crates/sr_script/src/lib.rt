//! The script of a session: what a line says.
#![tactic(auto)]

mod argument;
mod blank;
mod blank_block;
mod certificate;
mod command;
mod cursor;
mod digits;
mod hexadecimal;
mod law;
mod line;
mod listed;
mod name;
mod number;
mod readers;
mod reading;
mod words;

pub use command::{
    Command, MOST_CELLS, MOST_CHOICE, MOST_DISTANCE, MOST_EACH, MOST_LABEL, MOST_LABELS,
    MOST_WORKERS,
};
pub use law::{fault_is_unique, line_says_one_thing, said_is_not_refused};
pub use line::{Line, LineFault};
pub use name::{EndNames, LinkName, MOST_LINK_NUMBER, RepairName};
pub use reading::read_line;
