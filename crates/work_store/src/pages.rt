//! The slots of a store by their tags: a tree of three levels, in which a tag says where its slot stands.
ghost use Rattle.std.specs.Prelude.{◌≡◌, ◌<◌, ◌≤◌, ◌+◌, ◌^◌, [], ◌∷◌, length, IfOk, OnOk, OnErr, None, Some};
ghost use Rattle.std.specs.Option.{option_copied};
ghost use Rattle.std.specs.BTreeMap.{is_at, insert_entry};
ghost use Rattle.std.specs.Map.{lookup, remove_entry};
ghost use Rattle.std.specs.Ordering.{nat_cmp};
ghost use Rattle.work_store.specs.Rows.{entries_in_page, entries_in_chapter, all_entries, IsPageOf, IsChapterOf, ArePages, IsMarked};
ghost use Rattle.work_store.specs.Slots.{those, is_present};

use crate::iter::Elements;
use crate::row::Row;
use crate::slot::Slot;
use ops_base::memory::OutOfMemory;
use std::alloc::Global;
use std::marker::Model;

// The greatest number of slots.
const MOST_CHAPTERS: usize = 1 << 62;

/// Slots by their tags. Tag t has place t % 64 of a page, which is place t / 64 % 64 of chapter t / 4096. A page
/// without a slot and a chapter without a page are let go.
#[derive(Drop)]
pub(crate) struct Pages {
    pub(crate) chapters: Row<Row<Row<Slot>>>,
    alloc: Global,
}

impl Model for Pages {
    ghost use Rattle.std.specs.Prelude.{List, ℕ};
    ghost use Rattle.work_store.specs.declared.slot.Slot.{Slot};

    ghost Value = { List (ℕ × Slot) };

    ghost use Rattle.work_store.specs.Rows.{all_entries, ArePages};

    ghost view = { λ p. all_entries p.chapters };

    ghost invariant = { λ p. ArePages p.chapters };
}

// ---- a page

fn mark_in_page(page: &mut Row<Slot>, tag: u64)
    requires { IsPageOf tag page.old }
    ensures page { IsPageOf tag page.new }
    ensures held { page.new.held ≡ page.old.held }
    ensures entries { IsMarked tag (entries_in_page tag page.old) (entries_in_page tag page.new) }
{
    let at = (tag % 64) as usize;
    if at >= page.places.len() {
        return;
    }
    match &mut page.places[at] {
        Some(slot) => slot.present = false,
        None => {}
    }
}

fn remove_from_page(page: &mut Row<Slot>, tag: u64)
    requires { IsPageOf tag page.old }
    ensures page { IsPageOf tag page.new }
    ensures fewer { page.new.held ≤ page.old.held }
    ensures entries { entries_in_page tag page.new ≡ remove_entry (is_at (nat_cmp tag)) (entries_in_page tag page.old) }
{
    let at = (tag % 64) as usize;
    if at >= page.places.len() {
        return;
    }
    if page.places[at].is_some() {
        page.places[at] = None;
        page.held -= 1;
    }
}

fn add_to_page(page: &mut Row<Slot>, tag: u64, slot: Slot) -> Result<(), OutOfMemory>
    requires page { IsPageOf tag page.old }
    requires small { page.old.held < 2 ^ 63 }
    requires absent { lookup (is_at (nat_cmp tag)) (entries_in_page tag page.old) ≡ None }
    ensures page { IsPageOf tag page.new }
    ensures ok { OnOk result (entries_in_page tag page.new ≡ insert_entry nat_cmp (entries_in_page tag page.old) tag slot) }
    ensures held { OnOk result (page.new.held ≡ page.old.held + 1) }
    ensures err { OnErr result (entries_in_page tag page.new ≡ entries_in_page tag page.old) }
    ensures err_held { OnErr result (page.new.held ≡ page.old.held) }
{
    let at = (tag % 64) as usize;
    page.reach(at)?;
    page.places[at] = Some(slot);
    page.held += 1;
    Ok(())
}

fn new_page(alloc: Global, tag: u64, slot: Slot) -> Result<Row<Slot>, OutOfMemory>
    ensures page { IfOk result (λ p. IsPageOf tag p) }
    ensures entries { IfOk result (λ p. entries_in_page tag p ≡ (tag, slot) ∷ []) }
{
    let mut page = Row::new(alloc);
    add_to_page(&mut page, tag, slot)?;
    Ok(page)
}

// ---- a chapter

fn mark_in_chapter(chapter: &mut Row<Row<Slot>>, tag: u64)
    requires { IsChapterOf tag chapter.old }
    ensures chapter { IsChapterOf tag chapter.new }
    ensures held { chapter.new.held ≡ chapter.old.held }
    ensures entries { IsMarked tag (entries_in_chapter tag chapter.old) (entries_in_chapter tag chapter.new) }
{
    let at = (tag / 64 % 64) as usize;
    if at >= chapter.places.len() {
        return;
    }
    match &mut chapter.places[at] {
        Some(page) => mark_in_page(page, tag),
        None => {}
    }
}

fn remove_from_chapter(chapter: &mut Row<Row<Slot>>, tag: u64)
    requires { IsChapterOf tag chapter.old }
    ensures chapter { IsChapterOf tag chapter.new }
    ensures fewer { chapter.new.held ≤ chapter.old.held }
    ensures entries { entries_in_chapter tag chapter.new ≡ remove_entry (is_at (nat_cmp tag)) (entries_in_chapter tag chapter.old) }
{
    let at = (tag / 64 % 64) as usize;
    if at >= chapter.places.len() {
        return;
    }
    match &mut chapter.places[at] {
        Some(page) => {
            let before = page.held;
            remove_from_page(page, tag);
            let after = page.held;
            chapter.held -= before - after;
            if after == 0 {
                chapter.places[at] = None;
            }
        }
        None => {}
    }
}

fn add_to_chapter(
    chapter: &mut Row<Row<Slot>>,
    alloc: Global,
    tag: u64,
    slot: Slot,
) -> Result<(), OutOfMemory>
    requires chapter { IsChapterOf tag chapter.old }
    requires small { chapter.old.held < 2 ^ 63 }
    requires absent { lookup (is_at (nat_cmp tag)) (entries_in_chapter tag chapter.old) ≡ None }
    ensures chapter { IsChapterOf tag chapter.new }
    ensures ok { OnOk result (entries_in_chapter tag chapter.new ≡ insert_entry nat_cmp (entries_in_chapter tag chapter.old) tag slot) }
    ensures held { OnOk result (chapter.new.held ≡ chapter.old.held + 1) }
    ensures err { OnErr result (entries_in_chapter tag chapter.new ≡ entries_in_chapter tag chapter.old) }
    ensures err_held { OnErr result (chapter.new.held ≡ chapter.old.held) }
{
    let at = (tag / 64 % 64) as usize;
    chapter.reach(at)?;
    match &mut chapter.places[at] {
        Some(page) => {
            add_to_page(page, tag, slot)?;
            chapter.held += 1;
            Ok(())
        }
        None => {
            chapter.places[at] = Some(new_page(alloc, tag, slot)?);
            chapter.held += 1;
            Ok(())
        }
    }
}

fn new_chapter(alloc: Global, tag: u64, slot: Slot) -> Result<Row<Row<Slot>>, OutOfMemory>
    ensures chapter { IfOk result (λ c. IsChapterOf tag c) }
    ensures entries { IfOk result (λ c. entries_in_chapter tag c ≡ (tag, slot) ∷ []) }
{
    let mut chapter = Row::new(alloc);
    add_to_chapter(&mut chapter, alloc, tag, slot)?;
    Ok(chapter)
}

// ---- all chapters

fn mark_in_all(chapters: &mut Row<Row<Row<Slot>>>, tag: u64)
    requires { ArePages chapters.old }
    ensures chapters { ArePages chapters.new }
    ensures entries { IsMarked tag (all_entries chapters.old) (all_entries chapters.new) }
{
    let at = (tag / 4096) as usize;
    if at >= chapters.places.len() {
        return;
    }
    match &mut chapters.places[at] {
        Some(chapter) => mark_in_chapter(chapter, tag),
        None => {}
    }
}

fn remove_from_all(chapters: &mut Row<Row<Row<Slot>>>, tag: u64)
    requires { ArePages chapters.old }
    ensures chapters { ArePages chapters.new }
    ensures entries { all_entries chapters.new ≡ remove_entry (is_at (nat_cmp tag)) (all_entries chapters.old) }
{
    let at = (tag / 4096) as usize;
    if at >= chapters.places.len() {
        return;
    }
    match &mut chapters.places[at] {
        Some(chapter) => {
            let before = chapter.held;
            remove_from_chapter(chapter, tag);
            let after = chapter.held;
            chapters.held -= before - after;
            if after == 0 {
                chapters.places[at] = None;
            }
        }
        None => {}
    }
}

fn add_to_all(
    chapters: &mut Row<Row<Row<Slot>>>,
    alloc: Global,
    tag: u64,
    slot: Slot,
) -> Result<(), OutOfMemory>
    requires chapters { ArePages chapters.old }
    requires absent { lookup (is_at (nat_cmp tag)) (all_entries chapters.old) ≡ None }
    ensures chapters { ArePages chapters.new }
    ensures ok { OnOk result (all_entries chapters.new ≡ insert_entry nat_cmp (all_entries chapters.old) tag slot) }
    ensures err { OnErr result (all_entries chapters.new ≡ all_entries chapters.old) }
{
    if chapters.held >= MOST_CHAPTERS {
        return Err(OutOfMemory);
    }
    let at = (tag / 4096) as usize;
    chapters.reach(at)?;
    match &mut chapters.places[at] {
        Some(chapter) => {
            add_to_chapter(chapter, alloc, tag, slot)?;
            chapters.held += 1;
            Ok(())
        }
        None => {
            chapters.places[at] = Some(new_chapter(alloc, tag, slot)?);
            chapters.held += 1;
            Ok(())
        }
    }
}

impl Pages {
    /// No slots. Takes no memory.
    pub(crate) fn new(alloc: Global) -> Pages
        ensures { result ≡ [] }
    {
        Pages {
            chapters: Row::new(alloc),
            alloc,
        }
    }

    /// How many slots there are.
    pub(crate) fn len(&self) -> usize
        ensures number { result ≡ length self.now }
        ensures small { result < 2 ^ 63 }
    {
        self.chapters.held
    }

    /// The slot of that tag.
    pub(crate) fn get(&self, tag: u64) -> Option<&Slot>
        ensures { option_copied result ≡ lookup (is_at (nat_cmp tag)) self.now }
    {
        let chapter = self.chapters.get((tag / 4096) as usize)?;
        let page = chapter.get((tag / 64 % 64) as usize)?;
        page.get((tag % 64) as usize)
    }

    /// The present elements by rising tag.
    pub(crate) fn iter(&self) -> Elements<'_>
        ensures { result ≡ those is_present self.now }
    {
        Elements {
            slots: [].iter(),
            pages: [].iter(),
            chapters: self.chapters.places.iter(),
        }
    }

    /// Marks the element of that tag as kept.
    pub(crate) fn mark(&mut self, tag: u64)
        ensures { IsMarked tag self.old self.new }
    {
        mark_in_all(&mut self.chapters, tag);
    }

    /// Drops the slot of that tag. Takes no memory.
    pub(crate) fn remove(&mut self, tag: u64)
        ensures { self.new ≡ remove_entry (is_at (nat_cmp tag)) self.old }
    {
        remove_from_all(&mut self.chapters, tag);
    }

    /// Adds a slot under a tag that has none. Where memory runs out the slots are as they were.
    pub(crate) fn add(&mut self, tag: u64, slot: Slot) -> Result<(), OutOfMemory>
        requires { lookup (is_at (nat_cmp tag)) self.old ≡ None }
        ensures ok { OnOk result (self.new ≡ insert_entry nat_cmp self.old tag slot) }
        ensures err { OnErr result (self.new ≡ self.old) }
    {
        add_to_all(&mut self.chapters, self.alloc, tag, slot)
    }
}
