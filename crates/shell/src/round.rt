// The reply list: 360 pressures round the shell, and their force.
ghost use Rattle.std.specs.Prelude.{◌≡◌, ◌<◌, ◌≤◌, ◌^◌, length};
ghost use Rattle.cosine.specs.program.Table.{entry};
ghost use Rattle.shell.specs.Shell.{size, F_p, ReplyList};
ghost use Rattle.shell.specs.program.Fill.{placed};

use janssen::Pascals;

// A force.
#[derive(Clone, Copy)]
pub struct Newtons(pub u32);

// The patch on the wall of a circle.
#[derive(Clone, Copy)]
pub struct Patch {
    // p_p
    pub load: Pascals,
    // d_c, mm
    pub diameter: u64,
    pub ghost load_most: { load.0 < 2 ^ 21 },
    pub ghost diameter_most: { diameter ≤ 50000 },
}

impl Patch {
    // The size of p_p·cos, from 0 to 90 degrees.
    #[tactic(auto, using(crate::proofs::Bounds::size_is, crate::proofs::Bounds::quotient_most, crate::proofs::Bounds::product_fits))]
    fn size(self, degrees: usize) -> Pascals
        requires { degrees < 91 }
        ensures { (result.0 ≡ size entry self.load.0 degrees) × (result.0 < 2 ^ 21) }
    {
        let product = self.load.0 as u64 * cosine::entry(degrees);
        Pascals(fraction::quotient_up(product, 1000000000) as u32)
    }

    // F_p.
    #[tactic(auto, using(crate::proofs::Bounds::force_is, crate::proofs::Bounds::force_square, crate::proofs::Bounds::force_top, crate::proofs::Bounds::rounded_most))]
    fn force(self) -> Newtons
        ensures { (result.0 ≡ F_p self.diameter self.load.0) × (result.0 < 2 ^ 31) }
    {
        let d = self.diameter;
        let p = self.load.0 as u64;
        Newtons(fraction::quotient_up(355 * d * d * p, 1130000000) as u32)
    }

    // The whole list: each size of a quadrant is worked out once. The place 360, which the size at 0 degrees is stored in too, is the force's.
    pub fn fill(self, reply: &mut [i32])
        requires { length reply.old ≡ 361 }
        ensures { ReplyList entry self.diameter self.load.0 reply.new }
    {
        for degrees in 0..91 {
            place(reply, degrees, self.size(degrees));
        }
        reply[360] = self.force().0 as i32;
    }
}

// One size in its four places, so many degrees to either side of 0 and of 180.
#[tactic(auto, using(crate::proofs::Signs::negated_fits, crate::proofs::Signs::negated_read))]
fn place(reply: &mut [i32], degrees: usize, size: Pascals)
    requires { (length reply.old ≡ 361) × (degrees < 91) × (size.0 < 2 ^ 31) }
    ensures { reply.new ≡ placed reply.old degrees size.0 }
{
    let outward = size.0 as i32;
    let inward = -outward;
    reply[degrees] = outward;
    reply[360 - degrees] = outward;
    reply[180 - degrees] = inward;
    reply[180 + degrees] = inward;
}
