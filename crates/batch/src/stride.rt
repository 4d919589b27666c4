ghost use Rattle.std.specs.Prelude.{◌≤◌};

/// The bytes from the beginning of a vertex to that of the next.
#[derive(Clone, Copy, Debug)]
pub struct Stride {
    /// At least those of a vertex.
    pub bytes: usize,
    pub ghost wide: { 16 ≤ bytes },
    pub ghost near: { bytes ≤ 2048 },
}

impl Stride {
    ghost use Rattle.std.specs.Prelude.{◌≡◌, ◌↔◌, IsSome, IfSome};
    ghost use Rattle.batch.specs.Strides.{IsStride};

    /// The stride of this many bytes. Returns `None` if it is less than 16, greater than 2048, or no multiple of 4.
    pub fn new(bytes: u32) -> Option<Stride>
        ensures some { IsSome result ↔ IsStride bytes }
        ensures value { IfSome result (λ stride. stride.bytes ≡ bytes) }
    {
        if bytes < 16 || bytes > 2048 || bytes % 4 != 0 {
            return None;
        }
        Some(Stride {
            bytes: bytes as usize,
        })
    }
}
