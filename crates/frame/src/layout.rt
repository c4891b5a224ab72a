// Where the fields of a frame start, and where the values lie behind a field's tag and length. Document 01, "The frame".

pub const MARK: usize = field::MARK;

pub const PAGE_AT: usize = 0;

pub const PAGE: usize = PAGE_AT + MARK;

pub const SHAPE_AT: usize = PAGE + 4;

pub const SHAPE: usize = SHAPE_AT + MARK;

pub const SEED_AT: usize = SHAPE + 2;

pub const SEED: usize = SEED_AT + MARK;

pub const PAYLOAD_AT: usize = SEED + 4;

pub const PAYLOAD: usize = PAYLOAD_AT + MARK;
