ghost use Rattle.std.specs.Prelude.{◌≡◌, ℕ, ◌%◌, ◌==◌, ◌||◌, ◌<◌, [], None, IfOk, OnOk, IsTrue};
ghost use Rattle.std.specs.Prelude.{length, slice_index, slice_index_or};
ghost use Rattle.phys_mem.specs.PageBytes.{is_marked};
ghost use Rattle.phys_mem.specs.Page.{marked_in, copied_in};
ghost use Rattle.phys_mem.specs.Fetch.{all_four, fetched};

use crate::page::{Marks, PAGE_SIZE, Page, TextPage, load};
use crate::pages::Pages;
use fsim_base::Width;
use std::alloc::{AllocError, Global};

/// Whether four aligned bytes of a page are marked.
fn is_marked_word(text: &TextPage, offset: usize) -> bool
    requires aligned { offset % 4 ≡ 0 }
    requires inside { offset < 4096 }
    ensures { result ≡ all_four (is_marked text.now.marks) offset }
{
    (text.marks[offset / 8] >> (offset % 8)) & 0xf == 0xf
}

/// The aligned word of a page's text, none where its four bytes aren't all text.
pub fn fetch(text: &Option<Box<TextPage>>, offset: usize) -> Option<u32>
    requires aligned { offset % 4 ≡ 0 }
    requires inside { offset < 4096 }
    ensures { result ≡ fetched (marked_in text.now) (copied_in text.now) offset }
{
    match text {
        Some(text) if is_marked_word(text, offset) => {
            Some(load(&text.bytes, offset, Width::Word))
        }
        _ => None,
    }
}

/// Sets the copy of a page that has text to the page.
fn copy_page(text: &mut Option<Box<TextPage>>, page: &Page)
    ensures marks { marked_in text.new ≡ marked_in text.old }
    ensures bytes { (offset : ℕ) → IsTrue (marked_in text.old offset)
        → copied_in text.new offset ≡ slice_index page.now offset }
{
    if let Some(text) = text {
        text.bytes = *page;
    }
}

/// Sets the copies of the pages that have text to the pages.
pub fn copy_pages(pages: &Pages, texts: &mut [Option<Box<TextPage>>])
    requires lengths { length texts.old ≡ length pages.now }
    ensures marks { (i : ℕ)
        → marked_in (slice_index_or texts.new i None)
        ≡ marked_in (slice_index_or texts.old i None) }
    ensures bytes { (i offset : ℕ) → i < length pages.now
        → IsTrue (marked_in (slice_index_or texts.old i None) offset)
        → copied_in (slice_index_or texts.new i None) offset
        ≡ slice_index (slice_index_or pages.now i []) offset }
{
    for i in 0..pages.len() {
        copy_page(&mut texts[i], pages.page(i));
    }
}

/// No text for as many pages.
pub fn no_texts(alloc: Global, count: usize) -> Result<Vec<Option<Box<TextPage>>>, AllocError>
    ensures count { IfOk result (λ v. length v.items ≡ count) }
    ensures none { IfOk result (λ v. (i : ℕ) → slice_index_or v.items i None ≡ None) }
{
    let mut texts = Vec::with_capacity(alloc, count)?;
    for _ in 0..count {
        texts.push(None)?;
    }
    Ok(texts)
}

/// Marks one byte of a page.
fn set_mark(marks: &mut Marks, offset: usize)
    requires inside { offset < 4096 }
    ensures { is_marked marks.new ≡ (λ o. o == offset || is_marked marks.old o) }
{
    marks[offset / 8] |= 1 << (offset % 8);
}

/// The text of a page with one byte of text.
fn first_text(alloc: Global, offset: usize) -> Result<Box<TextPage>, AllocError>
    requires inside { offset < 4096 }
    ensures { IfOk result (λ text. is_marked text.value.marks ≡ (λ o. o == offset)) }
{
    let mut marks = [0; PAGE_SIZE / 8];
    set_mark(&mut marks, offset);
    let text = TextPage {
        bytes: [0; PAGE_SIZE],
        marks,
    };
    Ok(Box::new(alloc, text)?)
}

/// Makes one byte of a page text.
pub fn add_text(
    alloc: Global,
    text: &mut Option<Box<TextPage>>,
    offset: usize,
) -> Result<(), AllocError>
    requires inside { offset < 4096 }
    ensures { OnOk result (marked_in text.new ≡ (λ o. o == offset || marked_in text.old o)) }
{
    match text {
        Some(text) => set_mark(&mut text.marks, offset),
        None => *text = Some(first_text(alloc, offset)?),
    }
    Ok(())
}
