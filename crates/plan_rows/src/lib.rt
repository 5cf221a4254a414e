// The part table in a plan's working room: its columns by name, one reader and one writer of a cell. What the checks and the builder keep of each part.
#![tactic(auto)]

ghost use Rattle.std.specs.Prelude.{◌≡◌, ◌^◌, ◌<◌, set};
ghost use Rattle.words.specs.Sum.{sum_to};
ghost use Rattle.plan_rows.specs.Rows.{cell, cell_at, CellIn, ColumnIn};

// What each word of a part's row is for.
// stays: numbers and no enum, since a cell stands so many words behind where its row begins: each use would turn the enum into that number.
#[derive(Drop)]
pub struct Column;

impl Column {
    // Where its body begins in the record: the low 32 bits, and the others.
    pub const BODY_LOW: usize = 0;

    pub const BODY_HIGH: usize = 1;
    // How many locations, SRAMs, duplicate words and write-out words it has.
    pub const LOCATIONS: usize = 2;

    pub const SRAMS: usize = 3;

    pub const DUPLICATES: usize = 4;

    pub const WRITE_OUTS: usize = 5;
    // What the blocks give it.
    pub const BLOCK: usize = 6;

    pub const STATE_START: usize = 7;

    pub const SRAM_START: usize = 8;
    // Of row k: the part that is k-th in the order of the state.
    pub const RANKED: usize = 9;
    // How many rounds its reads take.
    pub const ROUNDS: usize = 10;
    // The piece size that won for them.
    pub const PIECE_SIZE: usize = 11;
}

// What word k of the row of part p holds.
pub fn cell_at(room: &[u32], p: usize, k: usize) -> u32
    requires { CellIn room.now p k }
    ensures { result ≡ cell_at room.now p k }
{
    room[65536 + 16 * p + k]
}

// Word k of the row of part p becomes x.
pub fn put_cell(room: &mut [u32], p: usize, k: usize, x: u32)
    requires { CellIn room.old p k }
    ensures { room.new ≡ set room.old (cell p k) x }
{
    room[65536 + 16 * p + k] = x;
}

// The sum of word k over the rows of the first parts.
pub fn column_sum(room: &[u32], parts: usize, k: usize) -> u64
    requires { ColumnIn room.now parts k }
    ensures { (result ≡ sum_to (λ p. cell_at room.now p k) parts) × (result < 2 ^ 50) }
{
    let mut sum: u64 = 0;
    for p in 0..parts {
        sum += cell_at(room, p, k) as u64;
    }
    sum
}
