//! A law about the definitions alone, stated as the contract of a function that does nothing.
ghost use Rattle.std.specs.Prelude.{◌≡◌, ◌<◌, ℕ, List, All};
ghost use Rattle.ops_base.specs.declared.elements.Element.{Element};
ghost use Rattle.ops_base.specs.declared.rules.Inst.{Inst};
ghost use Rattle.ops_base.specs.Names.{Spellings};
ghost use Rattle.ops_base.specs.WorkingMemory.{tags_of};
ghost use Rattle.ops_io.specs.Coming.{Coming};
ghost use Rattle.ops_meaning.specs.Acting.{Setting, acted};
ghost use Rattle.ops_meaning.specs.Kept.{WellKept};
ghost use Rattle.act_phase.specs.Excerpts.{IsExcerpt};

/// Over an excerpt of working memory, a right side writes the same, ends the same and leaves the same as over the
/// whole, because it looks up no other elements.
pub fn an_excerpt_is_enough()
    ensures { (s : Setting) (column : ℕ) (i : Inst) (whole part : List Element) (last : ℕ) (names : Spellings) (coming : Coming)
        → WellKept whole last → All (λ t. 0 < t) (tags_of whole) → IsExcerpt whole part i.tags
        → acted s column i (record { wm = whole; last = last; names = names; coming = coming })
        ≡ acted s column i (record { wm = part; last = last; names = names; coming = coming }) }
{}
