ghost use Rattle.std.specs.Prelude.{◌≡◌, ℕ, ◌++◌, ◌∷◌, ◌<◌, ◌^◌, [], IfOk, length, replicate};
ghost use Rattle.std.specs.Prelude.{slice_index, slice_index_or, vec_capacity};
ghost use Rattle.std.specs.Borrow.{sem};
ghost use Rattle.phys_mem.specs.Places.{made_for, place_for};

use crate::page::{PAGE_SIZE, Page};
use std::alloc::{AllocError, Global};
use std::marker::Model;

/// Pages of bytes, all zeros at first. Their memory is taken at once, but a page is made only when
/// it is first changed; until then it is the one page of zeros that all share.
#[derive(Drop)]
pub struct Pages {
    /// The pages that were made. The first is the page of zeros.
    made: Vec<Page>,
    /// For each page its place among those that were made, 0 where it wasn't made yet.
    places: Vec<u32>,
}

impl Model for Pages {
    ghost use Rattle.std.specs.Prelude.{List, ℕ, vec_capacity};

    ghost Value = { List (List ℕ) };

    ghost use Rattle.phys_mem.specs.Places.{pages_at, ArePlaces};

    ghost view = { λ p. pages_at p.made.items p.places.items };

    ghost invariant = { λ p. ArePlaces p.made.items p.places.items (vec_capacity p.made) };
}

impl Pages {
    ghost use Rattle.phys_mem.specs.Lends.{lends_page};

    /// Pages of zeros. All their memory is taken here.
    pub fn new(alloc: Global, count: usize) -> Result<Pages, AllocError>
        requires few { count < 2 ^ 32 }
        ensures count { IfOk result (λ pages. length pages ≡ count) }
        ensures zero { IfOk result (λ pages. (i offset : ℕ)
            → slice_index (slice_index_or pages i []) offset ≡ 0) }
    {
        let places = vec![in alloc; 0; count]?;
        let mut made = Vec::with_capacity(alloc, count + 1)?;
        made.push_reserved([0; PAGE_SIZE]);
        Ok(Pages { made, places })
    }

    /// How many pages there are.
    pub fn len(&self) -> usize
        ensures count { result ≡ length self.now }
    {
        self.places.len()
    }

    /// A page, to read.
    #[inline(always)]
    pub fn page(&self, index: usize) -> &Page
        requires inside { index < length self.now }
        ensures page { result.now ≡ slice_index_or self.now index [] }
    {
        &self.made[self.places[index] as usize]
    }

    /// A page, to change. It is made where it wasn't yet.
    #[inline(always)]
    pub fn page_mut(&mut self, index: usize) -> &mut Page
        requires inside { index < length self.old }
        ensures* changed { sem 𝓛 (lends_page self.entry index result) }
        ensures page { result.now ≡ slice_index_or self.old index [] }
    {
        let place = place_of(&mut self.made, &mut self.places[index]);
        &mut self.made[place]
    }
}

/// The place of a page, which is made where it wasn't yet.
#[inline(always)]
fn place_of(made: &mut Vec<Page>, place: &mut u32) -> usize
    requires room { place.old ≡ 0 → length made.old.items < vec_capacity made.old }
    requires few { place.old ≡ 0 → length made.old.items < 2 ^ 32 }
    ensures made { made.new.items ≡ made_for place.old made.old.items }
    ensures capacity { vec_capacity made.new ≡ vec_capacity made.old }
    ensures place { place.new ≡ place_for place.old made.old.items }
    ensures same { result ≡ place.new }
{
    if *place == 0 {
        make(made, place);
    }
    *place as usize
}

/// Makes a page.
#[inline(never)]
fn make(made: &mut Vec<Page>, place: &mut u32)
    requires room { length made.old.items < vec_capacity made.old }
    requires few { length made.old.items < 2 ^ 32 }
    ensures made { made.new.items ≡ made.old.items ++ replicate 4096 0 ∷ [] }
    ensures capacity { vec_capacity made.new ≡ vec_capacity made.old }
    ensures place { place.new ≡ length made.old.items }
{
    *place = made.len() as u32;
    made.push_reserved([0; PAGE_SIZE]);
}
