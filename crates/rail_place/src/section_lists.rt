//! Many short lists of sections, one behind the other.

ghost use Rattle.std.specs.Prelude.{◌≡◌, ◌<◌, [], ◌∷◌, ◌++◌, length, get_or, IfOk, OnOk, OnErr};
ghost use Rattle.std.specs.List.{list_all};
ghost use Rattle.rail_place.specs.Lists.{is_empty, is_empty_span};

use rail_base::SectionNo;
use std::alloc::{AllocError, Global};
use std::marker::Model;

/// Where a list begins and ends.
#[derive(Clone, Copy, Debug)]
struct Span {
    start: usize,
    end: usize,
}

impl Span {
    /// Whether the list is empty.
    fn is_empty(&self) -> bool
        ensures { result ≡ is_empty_span self.now }
    {
        self.start == self.end
    }
}

/// Lists of sections, all in one vector, so that a list takes no memory of its own. Contracts see it as
/// these lists.
#[derive(Debug)]
pub struct SectionLists {
    sections: Vec<SectionNo>,
    spans: Vec<Span>,
}

impl Drop for SectionLists {
    fn drop(self) {
        let SectionLists {
            sections: _sections,
            spans: _spans,
        } = self;
    }
}

impl Model for SectionLists {
    ghost use Rattle.std.specs.Prelude.{ℕ, List};
    ghost use Rattle.rail_place.specs.Lists.{AreSpans, lists_in};

    ghost Value = { List (List ℕ) };

    ghost view = { λ lists. lists_in lists.sections.items lists.spans.items };

    ghost invariant = { λ lists. AreSpans lists.sections.items lists.spans.items };
}

impl SectionLists {
    /// No lists, with room for so many lists of so many sections together.
    pub fn with_capacity(
        alloc: Global,
        lists: usize,
        sections: usize,
    ) -> Result<SectionLists, AllocError>
        ensures { IfOk result (λ made. made ≡ []) }
    {
        let sections = Vec::with_capacity(alloc, sections)?;
        let spans = Vec::with_capacity(alloc, lists)?;
        Ok(SectionLists { sections, spans })
    }

    /// Adds a list last. Where memory is not found nothing is changed.
    pub fn push(&mut self, sections: &[SectionNo]) -> Result<(), AllocError>
        ensures ok { OnOk result (self.new ≡ self.old ++ sections.now ∷ []) }
        ensures err { OnErr result (self.new ≡ self.old) }
    {
        self.spans.reserve(1)?;
        let start = self.sections.len();
        self.sections.extend_from_slice(sections)?;
        let end = self.sections.len();
        self.spans.push_reserved(Span { start, end });
        Ok(())
    }

    /// The number of lists.
    pub fn len(&self) -> usize
        ensures { result ≡ length self.now }
    {
        self.spans.len()
    }

    /// How many sections the lists have together.
    pub fn sections(&self) -> usize {
        self.sections.len()
    }

    /// Whether each list is empty.
    pub fn are_empty(&self) -> bool
        ensures { result ≡ list_all is_empty self.now }
    {
        are_empty(self.spans.as_slice())
    }

    /// The list at the index, which counts from 0.
    pub fn at(&self, index: usize) -> &[SectionNo]
        requires { index < length self.now }
        ensures { result.now ≡ get_or self.now index [] }
    {
        let span = self.spans[index];
        &self.sections[span.start..span.end]
    }
}

/// Whether each span is one of no sections.
fn are_empty(spans: &[Span]) -> bool
    ensures { result ≡ list_all is_empty_span spans.now }
{
    spans.iter().all(|span| span.is_empty())
}
