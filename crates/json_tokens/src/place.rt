ghost use Rattle.std.specs.Prelude.{◌≡◌};

/// What may stand at a place between two tokens of a JSON text.
#[derive(Clone, Copy, Drop)]
pub(crate) enum Place {
    /// At the begin, behind an opening bracket or a colon.
    Fresh,
    AfterComma,
    AfterValue,
}

impl Place {
    ghost use Rattle.json_tokens.specs.Tokens.{begins_at, closes_at};

    /// Whether a value or a key may begin here.
    #[inline(always)]
    pub(crate) fn may_begin(self) -> bool
        ensures { result ≡ begins_at self }
    {
        matches!(self, Place::Fresh | Place::AfterComma)
    }

    /// Whether a closing bracket may stand here.
    #[inline(always)]
    pub(crate) fn may_close(self) -> bool
        ensures { result ≡ closes_at self }
    {
        matches!(self, Place::Fresh | Place::AfterValue)
    }
}
