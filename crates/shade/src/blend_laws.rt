//! What follows from the definition of blending, for all channels. Each law is the contract of a call that does
//! nothing.
ghost use Rattle.std.specs.Prelude.{◌≡◌, ◌↔◌, ℕ, ◌+◌, ◌*◌, ◌/◌, ◌≤◌, min, ℤ, pos, ◌+ℤ◌, ◌*ℤ◌, ◌<ℤ◌, ◌≤ℤ◌, false, slice_index_or};
ghost use Rattle.shade.specs.declared.equation.Equation.{Equation};
ghost use Rattle.shade.specs.declared.operands.Channel.{Channel};
ghost use Rattle.shade.specs.declared.operands.Operands.{Operands};
ghost use Rattle.shade.specs.declared.sample.Merge.{Merge};
ghost use Rattle.shade.specs.Blend.{IsNearest, IsBlended, IsOver};
ghost use Rattle.shade.specs.Presets.{AreBytes, clamped, replace, keep, over, premultiplied_over, add, add_by_alpha, multiply, multiply_stored, none_blend, over_blend};
ghost use Rattle.shade.specs.Merging.{IsChannelMerged, IsWritten};

/// A channel has exactly one blended value, a byte.
pub fn is_determined()
    ensures some { (e : Equation) (channel : Channel) (o : Operands) → AreBytes o →
        (n : ℕ) × (n ≤ 255) × IsBlended e channel o n }
    ensures one { (e : Equation) (channel : Channel) (o : Operands) (m n : ℕ) → IsBlended e channel o m →
        IsBlended e channel o n → m ≡ n }
{}

/// The nearest byte is the nearest integer, clamped to 0..255.
pub fn is_clamped()
    ensures { (x q : ℤ) (n : ℕ) → (pos 255 *ℤ q) ≤ℤ (x +ℤ pos 127) → (x +ℤ pos 127) <ℤ (pos 255 *ℤ (q +ℤ pos 1)) →
        IsNearest x n ↔ (pos n ≡ clamped q) }
{}

/// The source over the stored channel, as draw lists have it, is the equation source alpha, inverse source alpha, add.
pub fn over_is_blended()
    ensures { (channel : Channel) (o : Operands) (n : ℕ) → AreBytes o →
        IsBlended over channel o n ↔ IsOver o.source o.source_alpha o.stored n }
{}

/// One, zero, add replaces the stored channel by the source.
pub fn replace_is_blended()
    ensures { (channel : Channel) (o : Operands) (n : ℕ) → AreBytes o → IsBlended replace channel o n ↔ (n ≡ o.source) }
{}

/// Zero, one, add leaves the stored channel.
pub fn keep_is_blended()
    ensures { (channel : Channel) (o : Operands) (n : ℕ) → AreBytes o → IsBlended keep channel o n ↔ (n ≡ o.stored) }
{}

/// One, one, add is the sum, clamped to 255.
pub fn add_is_blended()
    ensures { (channel : Channel) (o : Operands) (n : ℕ) → AreBytes o →
        IsBlended add channel o n ↔ (n ≡ min 255 (o.source + o.stored)) }
{}

/// Source alpha, one, add is the sum of the stored channel and of the source times its alpha, rounded to nearest and
/// clamped to 255.
pub fn add_by_alpha_is_blended()
    ensures { (channel : Channel) (o : Operands) (n : ℕ) → AreBytes o →
        IsBlended add_by_alpha channel o n ↔ (n ≡ min 255 ((o.source * o.source_alpha + 127) / 255 + o.stored)) }
{}

/// The product of both channels, whichever of them is taken as the factor of the other.
pub fn multiply_is_blended()
    ensures { (channel : Channel) (o : Operands) (n : ℕ) →
        IsBlended multiply channel o n ↔ IsBlended multiply_stored channel o n }
{}

/// Premultiplied over: over black it stores the source, an opaque source replaces what is stored, and a transparent
/// source leaves it.
pub fn premultiplied_is_blended()
    ensures black { (channel : Channel) (o : Operands) (n : ℕ) → AreBytes o → o.stored ≡ 0 →
        IsBlended premultiplied_over channel o n ↔ (n ≡ o.source) }
    ensures opaque { (channel : Channel) (o : Operands) (n : ℕ) → AreBytes o → o.source_alpha ≡ 255 →
        IsBlended premultiplied_over channel o n ↔ (n ≡ o.source) }
    ensures transparent { (channel : Channel) (o : Operands) (n : ℕ) → AreBytes o → o.source ≡ 0 → o.source_alpha ≡ 0 →
        IsBlended premultiplied_over channel o n ↔ (n ≡ o.stored) }
    // A source that was multiplied by its alpha without rounding is drawn as over draws it.
    ensures over { (channel : Channel) (o : Operands) (s n : ℕ) → 255 * o.source ≡ s * o.source_alpha →
        IsBlended premultiplied_over channel o n ↔
        IsBlended over channel
        (record {
          source = s;
          source_alpha = o.source_alpha;
          stored = o.stored;
          stored_alpha = o.stored_alpha;
          constant
              = o.constant;
        }) n }
{}

/// What the blending of draw lists makes of a channel that is written: with `none` it is the source, and with `over`
/// the source over the stored channel, rounded to nearest.
pub fn lists_are_blended()
    ensures none { (m : Merge) (k s a d n : ℕ) → m.blend ≡ none_blend → s ≤ 255 →
        IsChannelMerged m k s a 255 d n ↔ IsWritten (slice_index_or m.write k false) (λ c. c ≡ s) d n }
    ensures over { (m : Merge) (k s a d n : ℕ) → m.blend ≡ over_blend → s ≤ 255 → a ≤ 255 → d ≤ 255
        → IsChannelMerged m k s a 255 d n ↔ IsWritten (slice_index_or m.write k false) (IsOver s a d) d n }
{}
