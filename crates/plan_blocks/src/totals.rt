// The sizes of the whole state and of all SRAM, by the part table.
ghost use Rattle.std.specs.Prelude.{◌≡◌};
ghost use Rattle.plan_blocks.specs.Blocks.{state_words, sram_words};
ghost use Rattle.plan_blocks.specs.TableFill.{Tallied};

use plan_record::bodies::parts_of;
use plan_record::numbers::layout_of;
use plan_rows::{Column, column_sum};

// The words of one SRAM.
pub const SRAM_WORDS: u32 = 8192;

// How many words the state has: those of the input layout, and the write-out words of all parts.
pub fn state_words(d: &[u8], room: &[u32]) -> u64
    requires { Tallied d.now room.now }
    ensures { result ≡ state_words d.now }
{
    (layout_of(d) as u64).div_ceil(32) + column_sum(room, parts_of(d), Column::WRITE_OUTS)
}

// How many words of SRAM there are.
pub fn sram_words(d: &[u8], room: &[u32]) -> u64
    requires { Tallied d.now room.now }
    ensures { result ≡ sram_words d.now }
{
    SRAM_WORDS as u64 * column_sum(room, parts_of(d), Column::SRAMS)
}
