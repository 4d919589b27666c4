//! Triangles, states and blends that look random, and small canvases for them.
ghost use Rattle.std.specs.Prelude.{◌≤◌, length};

use canvas::{Canvas, Piece, TileRows, Vertex};
use grid::{Cull, PixelBox, Point, SampleCount, Tri};
use lanes::BlockSamples;
use readout::View;
use shade::{
    Blend, BlendFactor, BlendOperation, DepthTest, Equation, Merge, Placed, Sample, State, Stored,
};
use std::alloc::Global;
use std::process::Abort;
use std::test::Fail;

/// What a canvas is cleared to.
pub(crate) const CLEAR: Sample = Sample {
    r: 10,
    g: 20,
    b: 30,
    z: 60000,
};

/// The alpha to which it is cleared.
pub(crate) const CLEAR_ALPHA: u8 = 40;

/// A byte that no test expects to be written.
pub(crate) const UNTOUCHED: u8 = 77;

/// Numbers that look random.
#[derive(Drop)]
pub(crate) struct Numbers {
    pub(crate) state: u64,
}

impl Numbers {
    pub(crate) fn next(&mut self) -> u32 {
        self.state = self
            .state
            .wrapping_mul(6364136223846793005)
            .wrapping_add(1442695040888963407);
        (self.state >> 40) as u32
    }

    pub(crate) fn byte(&mut self) -> u8 {
        (self.next() % 256) as u8
    }

    /// A vertex within some pixels of the picture.
    pub(crate) fn vertex(&mut self, rt: &impl Abort) -> Vertex {
        let (x, y) = ((self.next() % 24_000) as i32, (self.next() % 24_000) as i32);
        Vertex {
            position: Point::new(x - 3000, y - 3000).expect(rt, "inside of the guard band"),
            z: (self.next() % 65536) as u16,
            rgba: [self.byte(), self.byte(), self.byte(), self.byte()],
        }
    }

    /// One of the choices.
    pub(crate) fn one_of<T: Copy>(&mut self, choices: &[T]) -> T
        requires { 1 ≤ length choices.now }
    {
        choices[self.next() as usize % choices.len()]
    }

    fn depth_test(&mut self) -> DepthTest {
        self.one_of(&[DepthTest::Always, DepthTest::LessEqual, DepthTest::Greater])
    }

    fn factor(&mut self) -> BlendFactor {
        self.one_of(&[
            BlendFactor::Zero,
            BlendFactor::One,
            BlendFactor::SourceColour,
            BlendFactor::InverseSourceColour,
            BlendFactor::SourceAlpha,
            BlendFactor::InverseSourceAlpha,
            BlendFactor::StoredAlpha,
            BlendFactor::InverseStoredAlpha,
            BlendFactor::StoredColour,
            BlendFactor::InverseStoredColour,
            BlendFactor::SourceAlphaSaturated,
            BlendFactor::Constant,
            BlendFactor::InverseConstant,
        ])
    }

    pub(crate) fn equation(&mut self) -> Equation {
        let (source, stored) = (self.factor(), self.factor());
        let operation = match self.next() % 7 {
            0 => BlendOperation::Subtract,
            1 => BlendOperation::ReverseSubtract,
            2 => BlendOperation::Min,
            3 => BlendOperation::Max,
            _ => BlendOperation::Add,
        };
        Equation {
            source,
            stored,
            operation,
        }
    }

    /// A blend state: three times in four one that has a name, else any.
    pub(crate) fn blend(&mut self) -> Blend {
        Blend {
            write_alpha: self.next() % 4 != 0,
            ..self.named_blend()
        }
    }

    fn named_blend(&mut self) -> Blend {
        match self.next() % 8 {
            0 => Blend::NONE,
            1 => Blend::OVER,
            2 => Blend::PREMULTIPLIED,
            3 => Blend::ADD,
            4 => Blend::MULTIPLY,
            5 => Blend::KEEP,
            _ => Blend {
                colour: self.equation(),
                alpha: self.equation(),
                constant: [self.byte(), self.byte(), self.byte(), self.byte()],
                write_alpha: false,
            },
        }
    }

    pub(crate) fn state(&mut self) -> State {
        State {
            merge: Merge {
                test: self.depth_test(),
                depth_write: self.next() % 2 == 0,
                write: [self.next() % 4 != 0, true, self.next() % 4 != 0],
                blend: self.blend(),
            },
            cull: if self.next() % 4 == 0 {
                Cull::Back
            } else {
                Cull::None
            },
            sample_mask: if self.next() % 4 == 0 {
                0xA5C5
            } else {
                u16::MAX
            },
            scissor: PixelBox {
                x0: (self.next() % 30) as i32,
                y0: (self.next() % 30) as i32,
                x1: 60 + (self.next() % 60) as i32,
                y1: 60 + (self.next() % 60) as i32,
            },
        }
    }

    pub(crate) fn triangle(&mut self, rt: &impl Abort) -> Placed {
        let (a, b, c) = (self.vertex(rt), self.vertex(rt), self.vertex(rt));
        placed(&a, &b, &c, self.state())
    }

    pub(crate) fn triangles(
        &mut self,
        rt: &impl Abort,
        alloc: Global,
        count: u32,
    ) -> Result<Vec<Placed>, Fail> {
        let mut triangles = Vec::new(alloc);
        for _ in 0..count {
            triangles.push(self.triangle(rt))?;
        }
        Ok(triangles)
    }
}

pub(crate) fn placed(a: &Vertex, b: &Vertex, c: &Vertex, state: State) -> Placed {
    let (of_a, of_b, of_c) = (a.rgba, b.rgba, c.rgba);
    Placed {
        tri: Tri::new(a.position, b.position, c.position),
        z: [a.z, b.z, c.z],
        rgba: [of_a, of_b, of_c],
        state,
    }
}

/// The sample planes of tile rows, all samples the clear one.
pub(crate) fn cleared(alloc: Global, rows: &TileRows) -> Result<Vec<BlockSamples>, Fail> {
    let mut samples = Vec::new(alloc);
    for _ in 0..rows.planes() {
        samples.push(BlockSamples::filled(CLEAR, CLEAR_ALPHA))?;
    }
    Ok(samples)
}

pub(crate) fn stored(triangles: &[Placed]) -> Stored<'_> {
    Stored { triangles }
}

/// Tile rows with their planes, to be drawn on.
pub(crate) fn piece<'a>(
    rt: &impl Abort,
    rows: &TileRows,
    samples: &'a mut [BlockSamples],
) -> Piece<'a> {
    assert!(rt; rows.fits(samples.len()));
    rows.over(samples)
}

/// Tile rows with their planes, to be read out.
pub(crate) fn view<'a>(rt: &impl Abort, rows: &TileRows, samples: &'a [BlockSamples]) -> View<'a> {
    assert!(rt; rows.fits(samples.len()));
    View::of(rows, samples)
}

pub(crate) fn small_canvas(rt: &impl Abort, count: SampleCount) -> Canvas {
    Canvas::new(70, 66, count).expect(rt, "1 to 4096 pixels a side")
}

/// `size` bytes that no call has written.
pub(crate) fn untouched(alloc: Global, size: usize) -> Result<Vec<u8>, Fail> {
    let mut bytes = Vec::new(alloc);
    for _ in 0..size {
        bytes.push(UNTOUCHED)?;
    }
    Ok(bytes)
}
