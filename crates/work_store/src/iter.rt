//! Going over the present elements.
ghost use Rattle.std.specs.Iterator.{YieldsFirstRef, item_count};
ghost use Rattle.std.specs.Slice.Iter.{iter_rest};
ghost use Rattle.work_store.specs.Rows.{standing, elements_by, elements_left, slot_elements};

use crate::row::Row;
use crate::slot::Slot;
use ops_base::elements::Element;
use std::marker::Model;
use std::slice;

/// The present elements by rising tag, seen as the list of those that are left.
#[derive(Drop)]
pub struct Elements<'a> {
    pub(crate) slots: slice::Iter<'a, Option<Slot>>,
    pub(crate) pages: slice::Iter<'a, Option<Row<Slot>>>,
    pub(crate) chapters: slice::Iter<'a, Option<Row<Row<Slot>>>>,
}

impl<'a> Model for Elements<'a> {
    ghost use Rattle.std.specs.Prelude.{List, ◌++◌};
    ghost use Rattle.std.specs.Slice.Iter.{iter_rest};
    ghost use Rattle.ops_base.specs.declared.elements.Element.{Element};
    ghost use Rattle.work_store.specs.Rows.{standing, elements_by, elements_left, chapter_elements};

    ghost Value = { List Element };

    ghost view = { λ e. elements_left (iter_rest e.slots) (iter_rest e.pages) ++ elements_by chapter_elements (standing (iter_rest e.chapters)) };
}

// what stands at the first of these places that holds something
fn next_standing<'a, T>(places: &mut slice::Iter<'a, Option<T>>) -> Option<&'a T>
    ensures { YieldsFirstRef (λ s. standing (iter_rest s)) places.old result places.new }
{
    while let Some(place) = places.next() {
        if let Some(held) = place {
            return Some(held);
        }
    }
    None
}

fn next_in_page<'a>(slots: &mut slice::Iter<'a, Option<Slot>>) -> Option<&'a Element>
    ensures { YieldsFirstRef (λ s. elements_by slot_elements (standing (iter_rest s))) slots.old result slots.new }
{
    while let Some(slot) = next_standing(slots) {
        if slot.present {
            return Some(&slot.element);
        }
    }
    None
}

fn next_in_pages<'a>(
    slots: &mut slice::Iter<'a, Option<Slot>>,
    pages: &mut slice::Iter<'a, Option<Row<Slot>>>,
) -> Option<&'a Element>
    ensures { YieldsFirstRef (λ left. left) (elements_left (iter_rest slots.old) (iter_rest pages.old)) result (elements_left (iter_rest slots.new) (iter_rest pages.new)) }
{
    loop {
        if let Some(element) = next_in_page(slots) {
            return Some(element);
        }
        match next_standing(pages) {
            Some(page) => *slots = page.places.iter(),
            None => return None,
        }
    }
}

impl<'a> Iterator for Elements<'a> {
    type Item = &'a Element;

    ghost next_gives = { YieldsFirstRef (λ left. left) };

    ghost remaining = { item_count (λ left. left) };

    fn next(&mut self) -> Option<&'a Element> {
        loop {
            if let Some(element) = next_in_pages(&mut self.slots, &mut self.pages) {
                return Some(element);
            }
            match next_standing(&mut self.chapters) {
                Some(chapter) => self.pages = chapter.places.iter(),
                None => return None,
            }
        }
    }
}
