ghost use Rattle.std.specs.Prelude.{◌≡◌, ℕ, ◌-◌, ◌<◌, slice_index};
ghost use Rattle.gradients.specs.Lanes.{HasLanes};
ghost use Rattle.shade.specs.Blend.{factor};
ghost use Rattle.shade.specs.declared.operands.Channel.TheVariants.{Colour, Alpha};
ghost use Rattle.lanes.specs.Operands.{AreByteLanes, AreByteColours, AreAlphaBytes, AreColourBytes, InEach, alpha_of};

use crate::arithmetic::{inverse, least};
use crate::operands::{AlphaOperands, ColourLanes, ColourOperands};
use shade::BlendFactor;
use std::simd::prelude::*;

/// A byte in all lanes.
#[inline(always)]
fn same_lanes(byte: u8) -> u16x16
    ensures bytes { AreByteLanes result }
    ensures value { (i : ℕ) → i < 16 → slice_index result i ≡ byte }
{
    u16x16::splat(u16::from(byte))
}

/// A blend factor of alpha times 255, in each lane.
#[inline(always)]
pub(crate) fn alpha_factor(by: BlendFactor, o: &AlphaOperands) -> u16x16
    requires { AreAlphaBytes o.now }
    ensures { HasLanes result (λ i. factor by Alpha (alpha_of o.now i)) }
{
    match by {
        BlendFactor::Zero => u16x16::splat(0),
        BlendFactor::One | BlendFactor::SourceAlphaSaturated => u16x16::splat(255),
        BlendFactor::SourceColour | BlendFactor::SourceAlpha => o.source,
        BlendFactor::InverseSourceColour | BlendFactor::InverseSourceAlpha => inverse(o.source),
        BlendFactor::StoredAlpha | BlendFactor::StoredColour => o.stored,
        BlendFactor::InverseStoredAlpha | BlendFactor::InverseStoredColour => inverse(o.stored),
        BlendFactor::Constant => same_lanes(o.constant),
        BlendFactor::InverseConstant => inverse(same_lanes(o.constant)),
    }
}

/// The same lanes for each colour.
#[inline(always)]
fn for_each(lanes: u16x16) -> ColourLanes
    requires { AreByteLanes lanes }
    ensures { (result.red ≡ lanes) × (result.green ≡ lanes) × (result.blue ≡ lanes) }
{
    ColourLanes {
        red: lanes,
        green: lanes,
        blue: lanes,
    }
}

/// What is left of one.
#[inline(always)]
fn inverses(of: &ColourLanes) -> ColourLanes
    requires { AreByteColours of.now }
    ensures red { HasLanes result.red (λ i. 255 - slice_index of.now.red i) }
    ensures green { HasLanes result.green (λ i. 255 - slice_index of.now.green i) }
    ensures blue { HasLanes result.blue (λ i. 255 - slice_index of.now.blue i) }
{
    ColourLanes {
        red: inverse(of.red),
        green: inverse(of.green),
        blue: inverse(of.blue),
    }
}

/// A byte for each colour in all lanes.
#[inline(always)]
fn constants(of: [u8; 4]) -> ColourLanes
    ensures bytes { AreByteColours result }
    ensures red { HasLanes result.red (λ i. slice_index of 0) }
    ensures green { HasLanes result.green (λ i. slice_index of 1) }
    ensures blue { HasLanes result.blue (λ i. slice_index of 2) }
{
    ColourLanes {
        red: same_lanes(of[0]),
        green: same_lanes(of[1]),
        blue: same_lanes(of[2]),
    }
}

/// A blend factor of colours times 255, in each lane of each colour: it is chosen once for all of them.
#[inline(always)]
pub(crate) fn colour_factors(by: BlendFactor, o: &ColourOperands) -> ColourLanes
    requires { AreColourBytes o.now }
    ensures bytes { AreByteColours result }
    ensures each { InEach o.now result (λ lane v. HasLanes v (λ i. factor by Colour (lane i))) }
{
    match by {
        BlendFactor::Zero => for_each(u16x16::splat(0)),
        BlendFactor::One => for_each(u16x16::splat(255)),
        BlendFactor::SourceColour => o.source,
        BlendFactor::InverseSourceColour => inverses(&o.source),
        BlendFactor::SourceAlpha => for_each(o.source_alpha),
        BlendFactor::InverseSourceAlpha => for_each(inverse(o.source_alpha)),
        BlendFactor::StoredAlpha => for_each(o.stored_alpha),
        BlendFactor::InverseStoredAlpha => for_each(inverse(o.stored_alpha)),
        BlendFactor::StoredColour => o.stored,
        BlendFactor::InverseStoredColour => inverses(&o.stored),
        BlendFactor::SourceAlphaSaturated => {
            for_each(least(o.source_alpha, inverse(o.stored_alpha)))
        }
        BlendFactor::Constant => constants(o.constant),
        BlendFactor::InverseConstant => inverses(&constants(o.constant)),
    }
}
