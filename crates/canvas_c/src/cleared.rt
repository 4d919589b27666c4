//! Samples that are all made the same.
ghost use Rattle.std.specs.Prelude.{◌≡◌, ◌≢◌, length, OnOk, OnErr, ⊤};
ghost use Rattle.canvas.specs.Drawing.{AreCleared};
ghost use Rattle.canvas.specs.Tiles.{AreUniform};
ghost use Rattle.checks.specs.Checking.{IsJudged};
ghost use Rattle.c_abi.specs.Calls.{IsStatus};
ghost use Rattle.canvas_c.specs.Pieces.{OnRows, piece_checks};
ghost use Rattle.canvas_c.specs.Clearing.{cleared_to};

use crate::piece::{CanvasHead, CanvasPiece, rows_of};
use c_abi::{Status, status_of};
use lanes::BlockSamples;
use shade::Sample;

/// The alpha of a canvas that has none.
const OPAQUE: u8 = 255;

/// What samples are made, laid out as in C.
#[repr(C)]
#[derive(Clone, Copy, Debug, PartialEq, Eq)]
pub struct Clear {
    pub red: u8,
    pub green: u8,
    pub blue: u8,
    /// Not looked at on a canvas without alpha.
    pub alpha: u8,
    pub depth: u16,
    /// Not read.
    pub unused: u16,
}

/// The alpha of the samples.
fn alpha_of(head: &CanvasHead, clear: &Clear) -> u8
    ensures { result ≡ (cleared_to head.now clear.now).alpha }
{
    if head.has_alpha() {
        clear.alpha
    } else {
        OPAQUE
    }
}

/// Makes each sample of these tile rows the one of this colour and depth.
fn clear_into(head: &CanvasHead, planes: &mut [BlockSamples], clear: &Clear) -> Result<(), Status>
    ensures judged { IsJudged (piece_checks head.now (length planes.old)) (λ done. ⊤) result }
    ensures cleared { OnOk result (OnRows head.now (λ c first end. AreCleared c first end (cleared_to head.now clear.now) planes.new)) }
    ensures uniform { OnOk result (OnRows head.now (λ c first end. AreUniform c first end planes.new)) }
    ensures kept { OnErr result (planes.new ≡ planes.old) }
{
    let rows = rows_of(head, planes)?;
    let sample = Sample {
        r: clear.red,
        g: clear.green,
        b: clear.blue,
        z: clear.depth,
    };
    let alpha = alpha_of(head, clear);
    let mut piece = rows.over(planes);
    piece.clear(sample, alpha);
    Ok(())
}

/// Makes each sample of these tile rows the one of this colour and depth, with this alpha if the canvas has alpha. Of
/// each tile `trirast_canvas_tile_ids` then writes one id. Returns the status. If it is not 0, the samples are unchanged.
#[unsafe(no_mangle)]
pub extern "C" fn trirast_proved_canvas_clear(canvas: &mut CanvasPiece<'_>, clear: &Clear) -> u32
    ensures status { IsStatus (piece_checks canvas.old.head (length canvas.old.planes.now)) result }
    ensures cleared { result ≡ 0 → OnRows canvas.old.head
        (λ c first end. AreCleared c first end (cleared_to canvas.old.head clear.now) canvas.new.planes.now) }
    ensures uniform { result ≡ 0 → OnRows canvas.old.head (λ c first end. AreUniform c first end canvas.new.planes.now) }
    ensures kept { result ≢ 0 → canvas.new.planes.now ≡ canvas.old.planes.now }
    ensures head { canvas.new.head ≡ canvas.old.head }
    ensures same { canvas.new.planes.ghost_name ≡ canvas.old.planes.ghost_name }
{
    let head = canvas.head;
    status_of(clear_into(&head, canvas.planes, clear))
}
