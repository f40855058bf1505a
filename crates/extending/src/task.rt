// What a search works on.
ghost use Rattle.extending.specs.Searchable.{Searchable};

use crate::Beam;

// The loaded book, the direction, the index of what the book holds, the list of the options, and the beam.
#[derive(Clone, Copy)]
pub struct Task<'a> {
    pub book: &'a [i32],
    pub direction: &'a [u16],
    pub index: &'a [u16],
    pub options: &'a [u16],
    pub beam: Beam,
    pub ghost searchable: { Searchable book.now direction.now index.now options.now beam.setup },
}
