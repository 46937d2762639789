//! Texts of JSON in which many places are explained.
ghost use Rattle.std.specs.Prelude.{◌≡◌, IfOk, string_bytes};
ghost use Rattle.std.specs.List.{All};
ghost use Rattle.stm_explain.specs.Explaining.{IsExplanationOf};
ghost use Rattle.stm_explain.specs.Marks.{IsMark};

use crate::explaining::line_of;
use crate::messages::Said;
use crate::offsets::offset_of;
use crate::position::{Position, position_from};
use json::{MAX_DEPTH, Reader, Scratch};
use std::alloc::{AllocError, Global};

/// An offset in a text, and its line and column.
#[derive(Clone, Copy)]
pub(crate) struct Mark {
    /// The offset.
    pub(crate) offset: usize,
    /// Its line and its column.
    pub(crate) at: Position,
}

/// A text under a name that is an array as JSON, with a mark at each of its elements.
///
/// So the places in many elements are found in no more time than it takes to read the text.
#[derive(Drop)]
pub struct Marked<'a> {
    /// The name, as people know it.
    pub name: &'a str,
    /// The text.
    pub text: &'a str,
    marks: Vec<Mark>,
    ghost are_marks: { All (IsMark text.now) marks.items },
}

/// The mark of a text's start.
fn front(text: &[u8]) -> Mark
    ensures { IsMark text.now result }
{
    Mark {
        offset: 0,
        at: Position::first(),
    }
}

/// The mark of an offset, counted on from the mark before it; where the offset is not after that mark or not in the text, the mark before it.
fn mark_at(text: &[u8], mark: Mark, offset: usize) -> Mark
    requires { IsMark text.now mark }
    ensures { IsMark text.now result }
{
    if offset < mark.offset || offset > text.len() {
        return mark;
    }
    let at = position_from(mark.at, &text[mark.offset..offset]);
    Mark { offset, at }
}

/// The marks of the elements of a text's array, which has this many.
fn marks_of(
    alloc: Global,
    text: &[u8],
    reader: &mut Reader<'_>,
    elements: usize,
) -> Result<Vec<Mark>, AllocError>
    ensures { IfOk result (λ marks. All (IsMark text.now) marks.items) }
{
    let mut marks = Vec::new(alloc);
    let mut mark = front(text);
    let _ = reader.next();
    for _ in 0..elements {
        mark = mark_at(text, mark, reader.offset());
        marks.push(mark)?;
        let _ = reader.skip_value(MAX_DEPTH);
    }
    Ok(marks)
}

impl<'a> Marked<'a> {
    /// A text under a name, with marks at the first `elements` elements of its array.
    pub fn new(
        alloc: Global,
        name: &'a str,
        text: &'a str,
        elements: usize,
    ) -> Result<Marked<'a>, AllocError>
        ensures name { IfOk result (λ marked. marked.name.now ≡ name.now) }
        ensures text { IfOk result (λ marked. marked.text.now ≡ text.now) }
    {
        let mut scratch = Scratch::new(alloc);
        let mut reader = Reader::new(text, &mut scratch)?;
        let marks = marks_of(alloc, text.as_bytes(), &mut reader, elements)?;
        Ok(Marked { name, text, marks })
    }

    /// Where the element after this one begins, or the text's end.
    fn end_of(&self, element: usize) -> usize {
        match self.marks.get(element.saturating_add(1)) {
            Some(next) => next.offset,
            None => self.text.len(),
        }
    }

    /// The mark of the value that these steps lead to in an element with this mark.
    fn mark_within(
        &self,
        alloc: Global,
        element: usize,
        mark: Mark,
        steps: &[usize],
    ) -> Result<Mark, AllocError>
        requires { IsMark self.now.text.now mark }
        ensures { IfOk result (IsMark self.now.text.now) }
    {
        let piece = self
            .text
            .get(mark.offset..self.end_of(element))
            .unwrap_or("");
        let inner = offset_of(alloc, piece, steps)?;
        Ok(mark_at(
            self.text.as_bytes(),
            mark,
            mark.offset.saturating_add(inner),
        ))
    }

    /// The mark of the value that these steps lead to; the text's start, where they lead to no element.
    fn mark_of(&self, alloc: Global, steps: &[usize]) -> Result<Mark, AllocError>
        ensures { IfOk result (IsMark self.now.text.now) }
    {
        let Some((element, rest)) = steps.split_first() else {
            return Ok(front(self.text.as_bytes()));
        };
        if *element >= self.marks.len() {
            return Ok(front(self.text.as_bytes()));
        }
        self.mark_within(alloc, *element, self.marks[*element], rest)
    }

    /// The explanation of what stands at the place that these indices lead to, as one line: `NAME:LINE:COLUMN: WORDS` and a line feed. It fails
    /// where an allocation failed.
    pub fn explained_at(&self, alloc: Global, steps: &[usize], words: &str) -> Said
        ensures { IfOk result (λ line. IsExplanationOf self.now.name.now self.now.text.now words.now (string_bytes line)) }
    {
        let mark = self.mark_of(alloc, steps)?;
        line_of(alloc, self.name, mark.at.line, mark.at.column, words)
    }
}
