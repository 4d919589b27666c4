/// Why a batch or polygons cannot be drawn, by its number in C. 3 was the cause of those from 15 to 22 together.
#[derive(Clone, Copy, Debug, PartialEq, Eq)]
pub enum BatchCause {
    // generated: causes
    /// Fewer vertices are left than the draw has.
    TooFewVertices = 1,
    /// Fewer indices are left than the draw has.
    TooFewIndices = 2,
    /// Not reported: 15 to 23 say which number is outside of its range.
    BadState = 3,
    /// The indices of the draw, or without any its vertices, make no whole triangles or quads.
    NotWhole = 4,
    /// The id of a triangle or a polygon would be greater than 16,777,215.
    TooManyIds = 5,
    /// An index, which is the error's value, is not less than the draw's `vertex_count`.
    BadIndex = 6,
    /// A vertex that an index names, or a corner, is outside of -8388608 to 8388607 in 1/256 pixel, on the screen or as
    /// seen from the canvas's origin.
    BadPosition = 7,
    /// A quad is not strictly convex.
    NotConvex = 8,
    /// A vertex or an index is in no draw, or a corner or a ring is in no polygon.
    LeftOver = 9,
    /// Polygons have 2^32 corners or more.
    TooManyCorners = 10,
    /// A ring ends before it begins, or behind the last corner.
    BadRing = 11,
    /// A polygon ends before it begins, or behind the last ring.
    BadPolygon = 12,
    /// There are fewer colours than polygons.
    TooFewColors = 13,
    /// There are depths, but fewer than polygons.
    TooFewDepths = 14,
    /// `topology` is not the number of a topology.
    BadTopology = 15,
    /// `cull` is not the number of a culling.
    BadCull = 16,
    /// `depth_test` is not the number of a depth test.
    BadDepthTest = 17,
    /// `depth_write` is neither 0 nor 1.
    BadDepthWrite = 18,
    /// A bit of `keep` is not that of a channel.
    BadKeep = 19,
    /// `scissor_enable` is neither 0 nor 1.
    BadScissorEnable = 20,
    /// A factor of `blend` is not the number of a factor.
    BadFactor = 21,
    /// An operation of `blend` is not the number of an operation.
    BadOperation = 22,
    /// `fill_rule` is not the number of a fill rule.
    BadFillRule = 23,
    /// There are boxes, but fewer than polygons.
    TooFewBoxes = 24,
    // end of causes
}

impl BatchCause {
    ghost use Rattle.std.specs.Prelude.{◌≡◌};
    ghost use Rattle.batch.specs.Causes.{number_of};

    /// Its number.
    pub fn number(self) -> u32
        ensures { result ≡ number_of self }
    {
        self as u32
    }
}

/// What is wrong with a draw, and with which of its elements.
#[derive(Clone, Copy, Debug, PartialEq, Eq)]
pub(crate) struct DrawFault {
    /// What is wrong.
    pub(crate) cause: BatchCause,
    /// Which one of the draw's indices, vertices or quads is wrong, or `None`.
    pub(crate) element: Option<usize>,
    /// The index that is wrong, or `None`.
    pub(crate) value: Option<usize>,
}

/// What is wrong with a batch, and where.
#[derive(Clone, Copy, Debug, PartialEq, Eq)]
pub struct BatchFault {
    /// What is wrong.
    pub cause: BatchCause,
    /// The draw in which it is, from 0, or `None`.
    pub draw: Option<usize>,
    /// Which one of the draw's indices, vertices or quads it is, from 0, or `None`.
    pub element: Option<usize>,
    /// If it is an index, its value, else `None`.
    pub value: Option<usize>,
}

impl BatchFault {
    ghost use Rattle.std.specs.Prelude.{◌≡◌};
    ghost use Rattle.batch.specs.Causes.{left_over};

    /// A vertex or an index is in no draw.
    pub fn left_over() -> BatchFault
        ensures { result ≡ left_over }
    {
        BatchFault {
            cause: BatchCause::LeftOver,
            draw: None,
            element: None,
            value: None,
        }
    }
}

impl DrawFault {
    ghost use Rattle.std.specs.Prelude.{◌≡◌};
    ghost use Rattle.batch.specs.Causes.{of_draw, at_element, bad_index, in_draw};

    /// What is wrong with the draw as a whole.
    pub(crate) fn of_draw(cause: BatchCause) -> DrawFault
        ensures { result ≡ of_draw cause }
    {
        DrawFault {
            cause,
            element: None,
            value: None,
        }
    }

    /// What is wrong with one of its indices, vertices or quads.
    pub(crate) fn at_element(cause: BatchCause, element: usize) -> DrawFault
        ensures { result ≡ at_element cause element }
    {
        DrawFault {
            cause,
            element: Some(element),
            value: None,
        }
    }

    /// An index that names no vertex: where it stands, and what it is.
    pub(crate) fn bad_index(place: usize, index: usize) -> DrawFault
        ensures { result ≡ bad_index place index }
    {
        DrawFault {
            cause: BatchCause::BadIndex,
            element: Some(place),
            value: Some(index),
        }
    }

    /// The same, of the draw of this number in a batch.
    pub(crate) fn in_draw(self, number: usize) -> BatchFault
        ensures { result ≡ in_draw number self }
    {
        BatchFault {
            cause: self.cause,
            draw: Some(number),
            element: self.element,
            value: self.value,
        }
    }
}
