// The rows of the table of commands, by name; a new one goes behind the last.
pub const HELP: usize = 0;

pub const READ: usize = 1;

pub const READ_AS: usize = 2;

pub const READ_RUNTIME: usize = 3;

pub const LABEL: usize = 4;

pub const FOOTAGE: usize = 5;

pub const RUNTIME: usize = 6;

pub const COUNT: usize = 7;

pub const FROM_TICKS: usize = 8;

pub const FROM_SECONDS: usize = 9;

pub const MINUTE: usize = 10;

pub const TICKS: usize = 11;

pub const SECONDS: usize = 12;

pub const NEG: usize = 13;

pub const ABS: usize = 14;

pub const REBASE: usize = 15;

pub const ADD: usize = 16;

pub const SUB: usize = 17;

pub const CMP: usize = 18;

pub const MUL: usize = 19;

pub const DIV: usize = 20;

pub const REM: usize = 21;

pub const DIVQ: usize = 22;

pub const REMQ: usize = 23;

pub const CONVERT: usize = 24;

pub const READ_LIST: usize = 25;

pub const WRITE_LIST: usize = 26;

pub const WHY: usize = 27;

pub const ROUTE: usize = 28;

// How many rows there are.
pub(crate) const ROWS: usize = 29;
