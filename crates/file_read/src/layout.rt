// The layout of a load file, form 1: where each field of a record begins, which is the sum of the widths before it. `file_read: Form` has the
// same widths, and the proofs hold them together.
use file_bytes::{BYTE, FLOAT, HALF, WORD};

// Stays: a constant for each field of each record, as one table of them by place would be read by number and name no field.
// The container block.
pub const BLOCK_WIDTH: usize = 0;

pub const BLOCK_DEPTH: usize = BLOCK_WIDTH + FLOAT;

pub const BLOCK_HEIGHT: usize = BLOCK_DEPTH + FLOAT;

pub const BLOCK_MARGIN: usize = BLOCK_HEIGHT + FLOAT;

pub const BLOCK_SPACING: usize = BLOCK_MARGIN + FLOAT;

pub const BLOCK_LIMIT: usize = BLOCK_SPACING + FLOAT;

pub const BLOCK: usize = BLOCK_LIMIT + FLOAT;

// A kind.
pub const KIND_ID: usize = 0;

pub const KIND_QUANTITY: usize = KIND_ID + WORD;

pub const KIND_WIDTH: usize = KIND_QUANTITY + WORD;

pub const KIND_DEPTH: usize = KIND_WIDTH + FLOAT;

pub const KIND_HEIGHT: usize = KIND_DEPTH + FLOAT;

pub const KIND_MASS: usize = KIND_HEIGHT + FLOAT;

pub const KIND_RULE: usize = KIND_MASS + FLOAT;

pub const KIND_MASSED: usize = KIND_RULE + BYTE;

pub const KIND_FILLER: usize = KIND_MASSED + BYTE;

pub const KIND: usize = KIND_FILLER + HALF;

// A line.
pub const LINE_ID: usize = 0;

pub const LINE_INSTANCE: usize = LINE_ID + WORD;

pub const LINE_ORIENTATION: usize = LINE_INSTANCE + WORD;

pub const LINE_BIN: usize = LINE_ORIENTATION + WORD;

pub const LINE_X: usize = LINE_BIN + WORD;

pub const LINE_Y: usize = LINE_X + FLOAT;

pub const LINE_Z: usize = LINE_Y + FLOAT;

pub const LINE: usize = LINE_Z + FLOAT;

// An unplaced id.
pub const ID: usize = WORD;

// The trailer: where each section begins, and where it begins itself; the form; the last two bytes.
pub const TRAILER_KINDS: usize = 0;

pub const TRAILER_LINES: usize = TRAILER_KINDS + WORD;

pub const TRAILER_UNPLACED: usize = TRAILER_LINES + WORD;

pub const TRAILER_START: usize = TRAILER_UNPLACED + WORD;

pub const TRAILER_FORM: usize = TRAILER_START + WORD;

pub const TRAILER_L: usize = TRAILER_FORM + HALF;

pub const TRAILER_S: usize = TRAILER_L + BYTE;

pub const TRAILER: usize = TRAILER_S + BYTE;

// The number of the form, and the two bytes that end a load file.
pub const FORM: u16 = 1;

pub const LETTER_L: u8 = b'L';

pub const LETTER_S: u8 = b'S';

// The most bytes that a load file has.
pub const MOST_BYTES: usize = 60000;
