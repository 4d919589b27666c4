ghost use Rattle.std.specs.Prelude.{◌*◌, ◌-◌, IsTrue, pos, ◌+ℤ◌, ◌-ℤ◌, slice_index};
ghost use Rattle.gradients.specs.Lanes.{HasLanes};
ghost use Rattle.shade.specs.declared.operands.Channel.TheVariants.{Colour, Alpha};
ghost use Rattle.shade.specs.Blend.{factor};
ghost use Rattle.shade.specs.Presets.{over, replace, IsKnown};
ghost use Rattle.lanes.specs.Mode.{known_of};
ghost use Rattle.lanes.specs.Operands.{AreByteLanes, AreByteColours, AreAlphaBytes, AreColourBytes, AreTerms, AreNearest, AreBlended, HasSmallSum, InEach, alpha_of};

use crate::arithmetic::{
    greatest, inverse, least, nearest_difference, nearest_small_sum, nearest_sum,
    nearest_with_whole, product,
};
use crate::factors::{alpha_factor, colour_factors};
use crate::operands::{AlphaOperands, ColourLanes, ColourOperands};
use shade::{BlendFactor, BlendOperation, Equation};
use std::simd::prelude::*;

/// Whether the sum of the two terms is at most 255 * 255: one factor is zero, or the two add up to one.
#[inline(always)]
fn has_small_sum(source: BlendFactor, stored: BlendFactor) -> bool
    ensures { IsTrue result → HasSmallSum source stored }
{
    match (source, stored) {
        (BlendFactor::Zero, _) | (_, BlendFactor::Zero) => true,
        (BlendFactor::SourceAlpha, BlendFactor::InverseSourceAlpha) => true,
        _ => false,
    }
}

/// The source over the stored channel in each lane.
#[inline(always)]
fn over_lanes(source: u16x16, alpha: u16x16, stored: u16x16) -> u16x16
    requires { AreByteLanes source × AreByteLanes alpha × AreByteLanes stored }
    ensures { AreNearest (λ i. pos (slice_index source i * slice_index alpha i) +ℤ pos
        (slice_index stored i * (255 - slice_index alpha i))) result }
{
    let p = product(source, alpha);
    let r = product(stored, inverse(alpha));
    nearest_small_sum(p, r)
}

/// The source over the stored colours: the equation `OVER`.
#[inline(always)]
fn over_colours(o: &ColourOperands) -> ColourLanes
    requires { AreColourBytes o.now }
    ensures { InEach o.now result (AreBlended over Colour) }
{
    ColourLanes {
        red: over_lanes(o.source.red, o.source_alpha, o.stored.red),
        green: over_lanes(o.source.green, o.source_alpha, o.stored.green),
        blue: over_lanes(o.source.blue, o.source_alpha, o.stored.blue),
    }
}

/// The source colours: the equation `REPLACE`.
#[inline(always)]
fn replaced_colours(o: &ColourOperands) -> ColourLanes
    requires { AreColourBytes o.now }
    ensures { InEach o.now result (AreBlended replace Colour) }
{
    o.source
}

/// Colours by an equation of draw lists.
#[inline(always)]
pub(crate) fn listed_colours(is_over: bool, equation: &Equation, o: &ColourOperands) -> ColourLanes
    requires bytes { AreColourBytes o.now }
    requires known { IsKnown (known_of is_over) equation.now }
    ensures { InEach o.now result (AreBlended equation.now Colour) }
{
    if is_over {
        over_colours(o)
    } else {
        replaced_colours(o)
    }
}

/// The products of each colour and its factor.
#[inline(always)]
fn products(of: &ColourLanes, factors: &ColourLanes) -> ColourLanes
    requires { AreByteColours of.now × AreByteColours factors.now }
    ensures red { AreTerms result.red × HasLanes result.red (λ i. slice_index of.now.red i * slice_index factors.now.red i) }
    ensures green { AreTerms result.green × HasLanes result.green (λ i. slice_index of.now.green i * slice_index factors.now.green i) }
    ensures blue { AreTerms result.blue × HasLanes result.blue (λ i. slice_index of.now.blue i * slice_index factors.now.blue i) }
{
    ColourLanes {
        red: product(of.red, factors.red),
        green: product(of.green, factors.green),
        blue: product(of.blue, factors.blue),
    }
}

/// The nearest colours to the sums of colours and of terms divided by 255.
#[inline(always)]
fn with_whole(whole: &ColourLanes, terms: &ColourLanes) -> ColourLanes
    requires { AreByteColours whole.now × AreTerms terms.now.red × AreTerms terms.now.green × AreTerms terms.now.blue }
    ensures red { AreNearest (λ i. pos (255 * slice_index whole.now.red i) +ℤ pos (slice_index terms.now.red i)) result.red }
    ensures green { AreNearest (λ i. pos (255 * slice_index whole.now.green i) +ℤ pos (slice_index terms.now.green i)) result.green }
    ensures blue { AreNearest (λ i. pos (255 * slice_index whole.now.blue i) +ℤ pos (slice_index terms.now.blue i)) result.blue }
{
    ColourLanes {
        red: nearest_with_whole(whole.red, terms.red),
        green: nearest_with_whole(whole.green, terms.green),
        blue: nearest_with_whole(whole.blue, terms.blue),
    }
}

/// The nearest colours to the sums of the terms `p` and `r`.
#[inline(always)]
fn sums(
    source: BlendFactor,
    stored: BlendFactor,
    o: &ColourOperands,
    p: &ColourLanes,
    r: &ColourLanes,
) -> ColourLanes
    requires bytes { AreColourBytes o.now }
    requires source { InEach o.now p.now (λ lane v. AreTerms v × HasLanes v (λ i. (lane i).source * factor source Colour (lane i))) }
    requires stored { InEach o.now r.now (λ lane v. AreTerms v × HasLanes v (λ i. (lane i).stored * factor stored Colour (lane i))) }
    ensures { InEach o.now result (λ lane v. AreNearest (λ i. pos ((lane i).source * factor source Colour (lane i)) +ℤ
        pos ((lane i).stored * factor stored Colour (lane i))) v) }
{
    if has_small_sum(source, stored) {
        ColourLanes {
            red: nearest_small_sum(p.red, r.red),
            green: nearest_small_sum(p.green, r.green),
            blue: nearest_small_sum(p.blue, r.blue),
        }
    } else {
        ColourLanes {
            red: nearest_sum(p.red, r.red),
            green: nearest_sum(p.green, r.green),
            blue: nearest_sum(p.blue, r.blue),
        }
    }
}

/// `nearest_difference` for each colour.
#[inline(always)]
fn differences(p: &ColourLanes, r: &ColourLanes) -> ColourLanes
    requires { AreTerms p.now.red × AreTerms p.now.green × AreTerms p.now.blue }
    ensures red { AreNearest (λ i. pos (slice_index p.now.red i) -ℤ pos (slice_index r.now.red i)) result.red }
    ensures green { AreNearest (λ i. pos (slice_index p.now.green i) -ℤ pos (slice_index r.now.green i)) result.green }
    ensures blue { AreNearest (λ i. pos (slice_index p.now.blue i) -ℤ pos (slice_index r.now.blue i)) result.blue }
{
    ColourLanes {
        red: nearest_difference(p.red, r.red),
        green: nearest_difference(p.green, r.green),
        blue: nearest_difference(p.blue, r.blue),
    }
}

/// Colours by any equation. What it says is looked at once for red, green and blue. In a sum a colour with the factor one is
/// a term of its own, without a product.
#[inline(always)]
pub(crate) fn blended_colours(equation: &Equation, o: &ColourOperands) -> ColourLanes
    requires { AreColourBytes o.now }
    ensures { InEach o.now result (AreBlended equation.now Colour) }
{
    let (source, stored) = (equation.source, equation.stored);
    let is_sum = equation.operation == BlendOperation::Add;
    if is_sum && source == BlendFactor::One {
        return with_whole(&o.source, &products(&o.stored, &colour_factors(stored, o)));
    }
    let p = products(&o.source, &colour_factors(source, o));
    if is_sum && stored == BlendFactor::One {
        return with_whole(&o.stored, &p);
    }
    let r = products(&o.stored, &colour_factors(stored, o));
    match equation.operation {
        BlendOperation::Add => sums(source, stored, o, &p, &r),
        BlendOperation::Subtract => differences(&p, &r),
        BlendOperation::ReverseSubtract => differences(&r, &p),
        BlendOperation::Min => ColourLanes {
            red: least(o.source.red, o.stored.red),
            green: least(o.source.green, o.stored.green),
            blue: least(o.source.blue, o.stored.blue),
        },
        BlendOperation::Max => ColourLanes {
            red: greatest(o.source.red, o.stored.red),
            green: greatest(o.source.green, o.stored.green),
            blue: greatest(o.source.blue, o.stored.blue),
        },
    }
}

/// The nearest bytes to the sum of the two terms `p` and `r` of alpha. A channel with the factor one is a term of its
/// own, without a product.
#[inline(always)]
fn added(
    source: BlendFactor,
    stored: BlendFactor,
    o: &AlphaOperands,
    p: u16x16,
    r: u16x16,
) -> u16x16
    requires bytes { AreAlphaBytes o.now }
    requires source { AreTerms p × HasLanes p (λ i. slice_index o.now.source i * factor source Alpha (alpha_of o.now i)) }
    requires stored { AreTerms r × HasLanes r (λ i. slice_index o.now.stored i * factor stored Alpha (alpha_of o.now i)) }
    ensures { AreNearest (λ i. pos (slice_index o.now.source i * factor source Alpha (alpha_of o.now i)) +ℤ pos
        (slice_index o.now.stored i * factor stored Alpha (alpha_of o.now i))) result }
{
    if source == BlendFactor::One {
        nearest_with_whole(o.source, r)
    } else if stored == BlendFactor::One {
        nearest_with_whole(o.stored, p)
    } else {
        nearest_sum(p, r)
    }
}

/// Alpha by any equation, not in line.
#[inline(never)]
fn blended_alpha(equation: &Equation, source: u16x16, stored: u16x16, constant: u8) -> u16x16
    requires { AreByteLanes source × AreByteLanes stored }
    ensures { AreBlended equation.now Alpha (alpha_of (record { source = source; stored = stored; constant = constant }))
        result }
{
    let o = &AlphaOperands {
        source,
        stored,
        constant,
    };
    let p = product(source, alpha_factor(equation.source, o));
    let r = product(stored, alpha_factor(equation.stored, o));
    match equation.operation {
        BlendOperation::Add => added(equation.source, equation.stored, o, p, r),
        BlendOperation::Subtract => nearest_difference(p, r),
        BlendOperation::ReverseSubtract => nearest_difference(r, p),
        BlendOperation::Min => least(source, stored),
        BlendOperation::Max => greatest(source, stored),
    }
}

/// Alpha by any equation. Those of `Blend::NONE` and `Blend::OVER` are in line.
#[inline(always)]
pub(crate) fn alpha_lanes(equation: &Equation, o: &AlphaOperands) -> u16x16
    requires { AreAlphaBytes o.now }
    ensures { AreBlended equation.now Alpha (alpha_of o.now) result }
{
    if *equation == Equation::REPLACE {
        o.source
    } else if *equation == Equation::PREMULTIPLIED_OVER {
        nearest_with_whole(o.source, product(o.stored, inverse(o.source)))
    } else {
        blended_alpha(equation, o.source, o.stored, o.constant)
    }
}
