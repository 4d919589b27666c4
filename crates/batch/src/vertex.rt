ghost use Rattle.std.specs.Prelude.{◌≡◌, ◌↔◌, IsSome, IfSome, length};
ghost use Rattle.batch.specs.Listed.{vertex_listed};
ghost use Rattle.batch.specs.Ranges.{IsVertexInRange};
ghost use Rattle.batch.specs.Strides.{vertex_of_bytes};

use draw_list::Vertex;
use grid::Point;

/// A vertex of a draw, laid out as in C.
#[repr(C)]
#[derive(Clone, Copy, Debug, Default, PartialEq, Eq)]
pub struct BatchVertex {
    /// To the right, in 1/256 pixel of the screen: -8388608 to 8388607.
    pub x: i32,
    /// Downwards, in 1/256 pixel of the screen: -8388608 to 8388607.
    pub y: i32,
    /// The depth.
    pub depth: u16,
    pub red: u8,
    pub green: u8,
    pub blue: u8,
    pub alpha: u8,
    /// Not read.
    pub unused: u16,
}

impl BatchVertex {
    /// The vertex of these 16 bytes.
    #[inline]
    pub(crate) fn of_bytes(bytes: &[u8]) -> BatchVertex
        requires { length bytes.now ≡ 16 }
        ensures { result ≡ vertex_of_bytes bytes.now }
    {
        BatchVertex {
            x: i32::from_le_bytes([bytes[0], bytes[1], bytes[2], bytes[3]]),
            y: i32::from_le_bytes([bytes[4], bytes[5], bytes[6], bytes[7]]),
            depth: u16::from_le_bytes([bytes[8], bytes[9]]),
            red: bytes[10],
            green: bytes[11],
            blue: bytes[12],
            alpha: bytes[13],
            unused: u16::from_le_bytes([bytes[14], bytes[15]]),
        }
    }

    /// The vertex, or `None` if its position is outside of the guard band.
    pub(crate) fn vertex(&self) -> Option<Vertex>
        ensures some { IsSome result ↔ IsVertexInRange self.now }
        ensures value { IfSome result (λ v. v ≡ vertex_listed self.now) }
    {
        let at = Point::new(self.x, self.y)?;
        Some(Vertex {
            at,
            z: self.depth,
            rgba: [self.red, self.green, self.blue, self.alpha],
        })
    }
}
