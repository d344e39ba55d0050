// The register image: nine bytes that stand for the registers.
ghost use Rattle.std.specs.Prelude.{◌≡◌};
ghost use Rattle.door_spec.specs.Image.{registers_of, image_of};

use registers::Registers;
use words::{BitAddress, join_four};

// The registers that an image stands for.
#[tactic(auto, unfolding(door_spec::specs::Image::registers_of))]
pub(crate) fn load(image: &[u8; 9]) -> Registers
    ensures { result ≡ registers_of image.now }
{
    Registers {
        pointer: BitAddress(join_four(image[0], image[1], image[2], image[3])),
        latch: u16::from_le_bytes([image[4], image[5]]),
        control: u16::from_le_bytes([image[6], image[7]]),
        hollow: image[8] == 1,
    }
}

// The image of registers.
#[tactic(auto, unfolding(door_spec::specs::Image::image_of), using(crate::proofs::Marks::as_bit))]
fn image_of(r: Registers) -> [u8; 9]
    ensures { result ≡ image_of r }
{
    let [p0, p1, p2, p3] = r.pointer.0.to_le_bytes();
    let [latch_low, latch_high] = r.latch.to_le_bytes();
    let [control_low, control_high] = r.control.to_le_bytes();
    [
        p0,
        p1,
        p2,
        p3,
        latch_low,
        latch_high,
        control_low,
        control_high,
        u8::from(r.hollow),
    ]
}

// The image of registers, written over nine lent bytes.
pub(crate) fn save(image: &mut [u8; 9], r: Registers)
    ensures { image.new ≡ image_of r }
{
    *image = image_of(r);
}
