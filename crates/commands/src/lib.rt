// The command bytes of tables and trees with the widths of their operands (document 01, "Commands"; document 02, W10 and W12). Every reader and writer takes
// sizes and places of operands from here.
#![tactic(auto)]

ghost use Rattle.std.specs.Prelude.{◌≡◌};
ghost use Rattle.commands.specs.Commands.{width_of, command_at};

// A command byte and how many bytes its operands take.
#[derive(Clone, Copy)]
pub struct Command {
    pub byte: u8,
    pub width: usize,
}

// How many commands there are.
pub const COUNT: usize = 12;

// END, of a table or a tree, and WAITING are their byte alone.
const NO_OPERANDS: usize = 0;

pub const COMMANDS: [Command; COUNT] = [
    Command {
        byte: 0x10,
        width: 1,
    },
    Command {
        byte: 0x20,
        width: 26,
    },
    Command {
        byte: 0x30,
        width: 8,
    },
    Command {
        byte: 0x3F,
        width: NO_OPERANDS,
    },
    Command {
        byte: 0x41,
        width: 2,
    },
    Command {
        byte: 0x42,
        width: 2,
    },
    Command {
        byte: 0x43,
        width: 8,
    },
    Command {
        byte: 0x44,
        width: 1,
    },
    Command {
        byte: 0x4F,
        width: NO_OPERANDS,
    },
    Command {
        byte: 0x21,
        width: 34,
    },
    Command {
        byte: 0x45,
        width: 16,
    },
    Command {
        byte: 0x46,
        width: NO_OPERANDS,
    },
];

// The commands by their names, each with its width, out of the table.
pub const FACTS: u8 = COMMANDS[0].byte;

const FACTS_WIDTH: usize = COMMANDS[0].width;

pub const JOB: u8 = COMMANDS[1].byte;

const JOB_WIDTH: usize = COMMANDS[1].width;

pub const GOAL: u8 = COMMANDS[2].byte;

const GOAL_WIDTH: usize = COMMANDS[2].width;

pub const END_OF_TABLE: u8 = COMMANDS[3].byte;

const END_OF_TABLE_WIDTH: usize = COMMANDS[3].width;

pub const FALLBACK: u8 = COMMANDS[4].byte;

const FALLBACK_WIDTH: usize = COMMANDS[4].width;

pub const SEQUENCE: u8 = COMMANDS[5].byte;

const SEQUENCE_WIDTH: usize = COMMANDS[5].width;

pub const CONDITION: u8 = COMMANDS[6].byte;

const CONDITION_WIDTH: usize = COMMANDS[6].width;

pub const JOB_LEAF: u8 = COMMANDS[7].byte;

const JOB_LEAF_WIDTH: usize = COMMANDS[7].width;

pub const END_OF_TREE: u8 = COMMANDS[8].byte;

const END_OF_TREE_WIDTH: usize = COMMANDS[8].width;

// A JOB that needs facts absent, too.
pub const PAIRED_JOB: u8 = COMMANDS[9].byte;

const PAIRED_JOB_WIDTH: usize = COMMANDS[9].width;

// A condition with both masks.
pub const PAIR: u8 = COMMANDS[10].byte;

const PAIR_WIDTH: usize = COMMANDS[10].width;

// The leaf of a fitter's tree where another fitter has a job to do.
pub const WAITING: u8 = COMMANDS[11].byte;

const WAITING_WIDTH: usize = COMMANDS[11].width;

// The bytes that each command takes, its own and its operands'.
pub const FACTS_SIZE: usize = 1 + FACTS_WIDTH;

pub const JOB_SIZE: usize = 1 + JOB_WIDTH;

pub const GOAL_SIZE: usize = 1 + GOAL_WIDTH;

pub const END_OF_TABLE_SIZE: usize = 1 + END_OF_TABLE_WIDTH;

pub const FALLBACK_SIZE: usize = 1 + FALLBACK_WIDTH;

pub const SEQUENCE_SIZE: usize = 1 + SEQUENCE_WIDTH;

pub const CONDITION_SIZE: usize = 1 + CONDITION_WIDTH;

pub const JOB_LEAF_SIZE: usize = 1 + JOB_LEAF_WIDTH;

pub const END_OF_TREE_SIZE: usize = 1 + END_OF_TREE_WIDTH;

pub const PAIRED_JOB_SIZE: usize = 1 + PAIRED_JOB_WIDTH;

pub const PAIR_SIZE: usize = 1 + PAIR_WIDTH;

pub const WAITING_SIZE: usize = 1 + WAITING_WIDTH;

// GOAL's operand is a mask.
pub const MASK_WIDTH: usize = GOAL_WIDTH;

// Where the first operand of a command stands, from its byte on.
pub const OPERANDS_AT: usize = 1;

// Where the second mask of a PAIRED_JOB or a PAIR stands, from its byte on.
pub const ABSENT_AT: usize = OPERANDS_AT + MASK_WIDTH;

// Where the adds of a JOB and of a PAIRED_JOB stand, from its byte on; its deletes and seconds follow them.
pub const ADDS_AT: usize = OPERANDS_AT + MASK_WIDTH;

pub const PAIRED_ADDS_AT: usize = ABSENT_AT + MASK_WIDTH;

const SECONDS_WIDTH: usize = 2;

// The bytes of the adds, deletes and seconds.
pub const EFFECTS_WIDTH: usize = MASK_WIDTH + MASK_WIDTH + SECONDS_WIDTH;

// The width of a command's operands, which is the table's: each byte has its place there. A byte that is no command has none.
pub fn width_of(byte: u8) -> Option<usize>
    ensures { result ≡ width_of byte }
{
    match byte {
        FACTS => Some(FACTS_WIDTH),
        JOB => Some(JOB_WIDTH),
        GOAL => Some(GOAL_WIDTH),
        END_OF_TABLE => Some(END_OF_TABLE_WIDTH),
        FALLBACK => Some(FALLBACK_WIDTH),
        SEQUENCE => Some(SEQUENCE_WIDTH),
        CONDITION => Some(CONDITION_WIDTH),
        JOB_LEAF => Some(JOB_LEAF_WIDTH),
        END_OF_TREE => Some(END_OF_TREE_WIDTH),
        PAIRED_JOB => Some(PAIRED_JOB_WIDTH),
        PAIR => Some(PAIR_WIDTH),
        WAITING => Some(WAITING_WIDTH),
        _ => None,
    }
}

// What stands at an offset of a table or tree.
#[derive(Clone, Copy)]
pub enum Found {
    // The bytes end before it.
    Missing,
    // A byte that is no command.
    Unknown,
    // A command whose operands are not all there.
    Cut(u8),
    // A command with its operands, and the offset past them.
    Whole(u8, usize),
}

pub fn command_at(s: &[u8], at: usize) -> Found
    ensures { result ≡ command_at s.now at }
{
    if s.len() <= at {
        return Found::Missing;
    }
    let byte = s[at];
    let rest = s.len() - at - 1;
    match width_of(byte) {
        None => Found::Unknown,
        Some(w) => {
            if w <= rest {
                Found::Whole(byte, at + 1 + w)
            } else {
                Found::Cut(byte)
            }
        }
    }
}
