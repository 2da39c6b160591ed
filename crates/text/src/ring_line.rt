//! The R line of a ring of either family: SONET's has no third field, SDH's has the letter M behind the fibres.
ghost use Rattle.std.specs.Prelude.{◌≡◌, ◌+◌, ◌≤◌, length};
ghost use Rattle.ring.specs.Limits.{desk};
ghost use Rattle.text.specs.RingLine.{ring_line};
ghost use Rattle.text.specs.ReadRing.{read_ring};
ghost use Rattle.text.specs.Written.{Passed};

use crate::RING;
use crate::field::Field;
use crate::line::{read_line, write_line};
use crate::pass::Pass;
use family::Family;
use ring::Ring;

/// R n fibres M
const MARKED_RING: [Field; 4] = [
    Field::Letter(b'R'),
    Field::Number,
    Field::Number,
    Field::Letter(b'M'),
];

/// Reads an R line of either family; or the place of its first faulty byte, counted from 0: where the line of neither goes on, which is the later of their faults.
#[tactic(auto, unfolding(crate::specs::ReadRing::read_ring, crate::specs::ReadRing::either_said))]
pub fn read_ring(text: &[u8]) -> Result<Ring, usize>
    ensures { result ≡ read_ring desk.marks desk.digits text.now }
{
    match read_line(text, &RING) {
        Ok(values) => {
            let [_, nodes, fibres] = values;
            let family = Family::Sonet;
            Ok(Ring {
                nodes,
                fibres,
                family,
            })
        }
        Err(plain) => match read_line(text, &MARKED_RING) {
            Ok(values) => {
                let [_, nodes, fibres, _] = values;
                let family = Family::Sdh;
                Ok(Ring {
                    nodes,
                    fibres,
                    family,
                })
            }
            Err(marked) => Err(if plain < marked { marked } else { plain }),
        },
    }
}

/// Writes the R line of a ring from a place on, or only measures it, and answers the place behind it.
pub fn write_ring<P: Pass>(buffer: &mut [u8], at: usize, ring: Ring) -> usize
    requires { at + length (ring_line ring) ≤ P.room buffer.old }
    ensures { Passed P.after buffer.old at (ring_line ring) buffer.new result }
{
    let Ring { nodes, fibres, .. } = ring;
    match ring.family {
        Family::Sonet => write_line::<P>(buffer, at, &RING, &[0, nodes, fibres]),
        Family::Sdh => write_line::<P>(buffer, at, &MARKED_RING, &[0, nodes, fibres, 0]),
    }
}
