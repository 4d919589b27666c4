//! The words of a line.
use grid::{Cull, PixelBox, Point, Quad, SampleCount, TileSide, Tri};
use list_json::{cull_named, depth_test_named};
use shade::{BlendFactor, BlendOperation, Channel, DepthTest, Equation, Operands, Sample, Shaded};
use std::str::SplitWhitespace;

/// What stands before a comment.
pub(crate) fn before_comment(line: &str) -> &str {
    line.split_once('#')
        .map_or(line, |(before, _comment)| before)
}

/// The words that are still to be read.
#[derive(Drop)]
pub(crate) struct Words<'a> {
    left: SplitWhitespace<'a>,
}

impl<'a> Words<'a> {
    pub(crate) fn of(text: &'a str) -> Words<'a> {
        Words {
            left: text.split_whitespace(),
        }
    }

    pub(crate) fn word(&mut self) -> Option<&'a str> {
        self.left.next()
    }

    pub(crate) fn whole(&mut self) -> Option<i64> {
        self.word()?.parse::<i64>().ok()
    }

    pub(crate) fn coordinate(&mut self) -> Option<i32> {
        self.word()?.parse::<i32>().ok()
    }

    pub(crate) fn number(&mut self) -> Option<u32> {
        self.word()?.parse::<u32>().ok()
    }

    pub(crate) fn value(&mut self) -> Option<u16> {
        self.word()?.parse::<u16>().ok()
    }

    /// A value at each corner of a triangle.
    pub(crate) fn values(&mut self) -> Option<[u16; 3]> {
        Some([self.value()?, self.value()?, self.value()?])
    }

    pub(crate) fn byte(&mut self) -> Option<u8> {
        self.word()?.parse::<u8>().ok()
    }

    /// A word of hexadecimal digits, the last 16 of which count.
    pub(crate) fn hexadecimal(&mut self) -> Option<u64> {
        let mut number = 0u64;
        for digit in self.word()?.chars() {
            number = (number << 4) | u64::from(digit.to_digit(16)?);
        }
        Some(number)
    }

    /// A point inside of the guard band.
    pub(crate) fn point(&mut self) -> Option<Point> {
        Point::new(self.coordinate()?, self.coordinate()?)
    }

    pub(crate) fn triangle(&mut self) -> Option<Tri> {
        Some(Tri::new(self.point()?, self.point()?, self.point()?))
    }

    /// A quad, or `Some(None)` if its corners make none.
    pub(crate) fn quad(&mut self) -> Option<Option<Quad>> {
        let (a, b) = (self.point()?, self.point()?);
        let (c, d) = (self.point()?, self.point()?);
        Some(Quad::new(a, b, c, d))
    }

    /// A rectangle of pixels: the first column and row, and those after the last.
    pub(crate) fn rectangle(&mut self) -> Option<PixelBox> {
        let (x0, y0) = (self.coordinate()?, self.coordinate()?);
        let (x1, y1) = (self.coordinate()?, self.coordinate()?);
        Some(PixelBox { x0, y0, x1, y1 })
    }

    pub(crate) fn truth(&mut self) -> Option<bool> {
        match self.word()? {
            "yes" => Some(true),
            "no" => Some(false),
            _ => None,
        }
    }

    /// A stored sample: red, green, blue, depth.
    pub(crate) fn sample(&mut self) -> Option<Sample> {
        let (r, g, b) = (self.byte()?, self.byte()?, self.byte()?);
        let z = self.value()?;
        Some(Sample { r, g, b, z })
    }

    /// A new sample: red, green, blue, alpha, depth.
    pub(crate) fn shaded(&mut self) -> Option<Shaded> {
        let (r, g, b) = (self.byte()?, self.byte()?, self.byte()?);
        let (a, z) = (self.byte()?, self.value()?);
        Some(Shaded { r, g, b, a, z })
    }

    pub(crate) fn tile_side(&mut self) -> Option<TileSide> {
        match self.word()? {
            "T8" => Some(TileSide::T8),
            "T16" => Some(TileSide::T16),
            "T32" => Some(TileSide::T32),
            "T64" => Some(TileSide::T64),
            _ => None,
        }
    }

    pub(crate) fn cull(&mut self) -> Option<Cull> {
        cull_named(self.word()?)
    }

    pub(crate) fn samples(&mut self) -> Option<SampleCount> {
        match self.word()? {
            "1" => Some(SampleCount::One),
            "2" => Some(SampleCount::Two),
            "4" => Some(SampleCount::Four),
            "8" => Some(SampleCount::Eight),
            "16" => Some(SampleCount::Sixteen),
            _ => None,
        }
    }

    pub(crate) fn depth_test(&mut self) -> Option<DepthTest> {
        depth_test_named(self.word()?)
    }

    fn factor(&mut self) -> Option<BlendFactor> {
        match self.word()? {
            "zero" => Some(BlendFactor::Zero),
            "one" => Some(BlendFactor::One),
            "source_colour" => Some(BlendFactor::SourceColour),
            "inverse_source_colour" => Some(BlendFactor::InverseSourceColour),
            "source_alpha" => Some(BlendFactor::SourceAlpha),
            "inverse_source_alpha" => Some(BlendFactor::InverseSourceAlpha),
            "stored_alpha" => Some(BlendFactor::StoredAlpha),
            "inverse_stored_alpha" => Some(BlendFactor::InverseStoredAlpha),
            "stored_colour" => Some(BlendFactor::StoredColour),
            "inverse_stored_colour" => Some(BlendFactor::InverseStoredColour),
            "source_alpha_saturated" => Some(BlendFactor::SourceAlphaSaturated),
            "constant" => Some(BlendFactor::Constant),
            "inverse_constant" => Some(BlendFactor::InverseConstant),
            _ => None,
        }
    }

    fn operation(&mut self) -> Option<BlendOperation> {
        match self.word()? {
            "add" => Some(BlendOperation::Add),
            "subtract" => Some(BlendOperation::Subtract),
            "reverse_subtract" => Some(BlendOperation::ReverseSubtract),
            "min" => Some(BlendOperation::Min),
            "max" => Some(BlendOperation::Max),
            _ => None,
        }
    }

    /// A blend equation: the factors of source and stored channel, and the operation.
    pub(crate) fn equation(&mut self) -> Option<Equation> {
        let (source, stored) = (self.factor()?, self.factor()?);
        let operation = self.operation()?;
        Some(Equation {
            source,
            stored,
            operation,
        })
    }

    pub(crate) fn colour_or_alpha(&mut self) -> Option<Channel> {
        match self.word()? {
            "colour" => Some(Channel::Colour),
            "alpha" => Some(Channel::Alpha),
            _ => None,
        }
    }

    /// What an equation reads: source, source alpha, stored channel, stored alpha, constant.
    pub(crate) fn operands(&mut self) -> Option<Operands> {
        let (source, source_alpha) = (self.byte()?, self.byte()?);
        let (stored, stored_alpha) = (self.byte()?, self.byte()?);
        let constant = self.byte()?;
        Some(Operands {
            source,
            source_alpha,
            stored,
            stored_alpha,
            constant,
        })
    }
}
