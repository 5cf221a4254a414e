// The masks of a stage.
ghost use Rattle.std.specs.Prelude.{◌*◌, ◌<◌};
ghost use Rattle.script.specs.Writers.{AcceptedPart, MaskBits, LaneMasks};

use plan_gates::find_gate;
use plan_record::bodies::Part;
use plan_record::numbers::{gate_first, gate_second};
use plan_slots::tables::top_power;
use words::units::EMPTY_PIN;

// Mask bits of a position.
#[derive(Drop)]
pub struct Masks {
    pub xora: u32,
    pub xorb: u32,
    pub orb: u32,
}

// The mask bits at position q: a slot that equals slot a has orb, a gate the inversions of its fan-ins.
fn masks_at(part: &Part, s: usize, q: usize) -> Masks
    requires { AcceptedPart part.now.d.now part.now.p part.now.body × (s < part.now.body.stages) × (q < 32 * part.now.body.lanes) }
    ensures { MaskBits part.now.d.now part.now.p s q result }
{
    if q == 0 {
        return Masks {
            xora: 0,
            xorb: 0,
            orb: 0,
        };
    }
    let pin = part.slot(s, q);
    if pin.0 == EMPTY_PIN {
        return Masks {
            xora: 0,
            xorb: 0,
            orb: 0,
        };
    }
    if pin.0 == part.slot(s, q + top_power(q)).0 {
        return Masks {
            xora: 0,
            xorb: 0,
            orb: 1,
        };
    }
    match find_gate(part.d, pin) {
        Some(g) => {
            let xora = gate_first(part.d, g).inversion();
            let xorb = gate_second(part.d, g).inversion();
            Masks { xora, xorb, orb: 0 }
        }
        None => Masks {
            xora: 0,
            xorb: 0,
            orb: 0,
        },
    }
}

// The four words of lane w: its masks, from its 32 positions, and 0.
pub fn lane_masks(part: &Part, s: usize, w: usize) -> [u32; 4]
    requires { AcceptedPart part.now.d.now part.now.p part.now.body × (s < part.now.body.stages) × (w < part.now.body.lanes) }
    ensures { LaneMasks part.now.d.now part.now.p s w result }
{
    let mut xora = 0;
    let mut xorb = 0;
    let mut orb = 0;
    for k in 0..32 {
        let bits = masks_at(part, s, 32 * w + k);
        xora |= bits.xora << k;
        xorb |= bits.xorb << k;
        orb |= bits.orb << k;
    }
    [xora, xorb, orb, 0]
}
