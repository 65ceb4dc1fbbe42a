// The kinds of a slot, and the questions that are asked of a kind.
ghost use Rattle.std.specs.Prelude.{◌≡◌, cond};
ghost use Rattle.unit.specs.Kinds.{no_kind, is_kind, is_page, has_bytes, is_gone, was_written, kind_code, held_code};

#[derive(Clone, Copy, Debug, PartialEq, Eq)]
pub enum Kind {
    Data = 1,
    Junk,
    // What a trim makes of a page.
    Retired,
    // What it makes of a position that was never written.
    Stray,
}

impl Kind {
    // By their bytes, from 1 on.
    const ALL: [Kind; 4] = [Kind::Data, Kind::Junk, Kind::Retired, Kind::Stray];

    // The kind that a byte stands for. Looked up, for the compiler makes a table of jumps of a match here.
    #[tactic(auto, unfolding(crate::specs::Kinds::is_kind))]
    pub(crate) fn of(byte: u8) -> Option<Kind>
        ensures { held_code result ≡ cond (is_kind byte) byte no_kind }
    {
        let at = usize::from(byte).checked_sub(1)?;
        Kind::ALL.get(at).copied()
    }

    // A page: written by a writer, shown to a reader.
    #[tactic(auto, unfolding(crate::specs::Kinds::is_page))]
    pub(crate) fn is_page(self) -> bool
        ensures { result ≡ is_page (kind_code self) }
    {
        matches!(self, Kind::Data | Kind::Junk)
    }

    // It may have a payload.
    #[tactic(auto, unfolding(crate::specs::Kinds::has_bytes))]
    pub(crate) fn has_bytes(self) -> bool
        ensures { result ≡ has_bytes (kind_code self) }
    {
        matches!(self, Kind::Data)
    }

    // Its position is trimmed.
    #[tactic(auto, unfolding(crate::specs::Kinds::is_gone))]
    pub(crate) fn is_gone(self) -> bool
        ensures { result ≡ is_gone (kind_code self) }
    {
        matches!(self, Kind::Retired | Kind::Stray)
    }

    // Its position was written, whether it is trimmed since or not.
    #[tactic(auto, unfolding(crate::specs::Kinds::was_written, crate::specs::Kinds::is_page))]
    pub(crate) fn was_written(self) -> bool
        ensures { result ≡ was_written (kind_code self) }
    {
        !matches!(self, Kind::Stray)
    }
}

// Whether the position of a slot with this byte was written.
pub(crate) fn was_written(byte: u8) -> bool
    ensures { result ≡ was_written byte }
{
    Kind::of(byte).is_some_and(Kind::was_written)
}
