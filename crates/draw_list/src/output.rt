ghost use Rattle.std.specs.Prelude.{◌≡◌, ◌≤◌, ◌/◌, ◌%◌, [], ◌∷◌};

/// What the picture of a draw list shows.
#[derive(Clone, Copy, Debug, PartialEq, Eq)]
pub enum Output {
    /// The colours: three bytes a pixel, red, green and blue, each resolved from the pixel's samples.
    Color,
    /// The depths: two bytes a pixel, the more significant one first, of the depth of the pixel's sample 0.
    Depth,
}

impl Output {
    ghost use Rattle.draw_list.specs.Picture.{output_pixel_bytes};

    /// The number of bytes of a pixel.
    pub fn pixel_bytes(self) -> u32
        ensures value { result ≡ output_pixel_bytes self }
        ensures greatest { result ≤ 3 }
    {
        match self {
            Output::Color => 3,
            Output::Depth => 2,
        }
    }
}

/// The two bytes that a picture of depths has for a depth, the more significant one first.
#[inline(always)]
pub fn depth_bytes(depth: u16) -> [u8; 2]
    ensures { result ≡ depth / 256 ∷ depth % 256 ∷ [] }
{
    depth.to_be_bytes()
}
