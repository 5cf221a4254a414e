// The piece sizes that won: document 02, 2/13.
ghost use Rattle.std.specs.Prelude.{◌≡◌, ◌≤◌, length};
ghost use Rattle.std.proofs.lemmas.List.Edits.{sets};
ghost use Rattle.plan_record.specs.Record.{plan_lanes, parts_of};
ghost use Rattle.script_layout.specs.Layout.{AcceptedTabled};
ghost use Rattle.flatten.specs.Flatten.{piece_sizes};

use plan_record::bodies::parts_of;
use plan_rows::{Column, cell_at};

// The piece size of each part, as its row says.
pub fn write_pieces(d: &[u8], room: &[u32], pieces: &mut [u32])
    requires { AcceptedTabled d.now room.now × (parts_of d.now ≤ length pieces.old) }
    ensures { pieces.new ≡ sets pieces.old 0 (piece_sizes (plan_lanes d.now) d.now) }
{
    let parts = parts_of(d);
    for p in 0..parts {
        pieces[p] = cell_at(room, p, Column::PIECE_SIZE);
    }
}
