//! The passes of a mount's seats.
ghost use Rattle.std.specs.Prelude.{◌≡◌, ◌<◌, ◌≤◌, [], None, Some, is_none, length, map, count_by, get_or, slice_set, vec_len, vec_capacity};

use std::marker::Model;

/// The passes of a mount by seat; none stands at a seat that is out.
#[derive(Drop)]
pub struct Passes<P> {
    places: Vec<Option<P>>,
}

impl<P> Model for Passes<P> {
    ghost use Rattle.std.specs.Prelude.{List, Option};

    ghost Value = { List (Option P) };

    ghost view = { λ passes. passes.places.items };
}

impl<P: Drop> Passes<P> {
    /// The passes of an offer, by place, in room that was made for them. Takes no memory.
    pub(crate) fn of(room: Vec<Option<P>>, offer: Vec<P>) -> Passes<P>
        requires empty { room.items ≡ [] }
        requires enough { vec_len offer ≤ vec_capacity room }
        ensures { result ≡ map Some offer.items }
    {
        let mut places = room;
        for pass in offer {
            places.push(Some(pass)).unwrap();
        }
        Passes { places }
    }

    /// How many seats are out.
    pub(crate) fn count_out(&self) -> usize
        ensures { result ≡ count_by is_none self.now }
    {
        let places = self.places.as_slice();
        let mut count = 0;
        for place in places {
            if place.is_none() {
                count += 1;
            }
        }
        count
    }

    /// Takes the pass of a seat away. `None` where the seat is out, or isn't there.
    pub(crate) fn take(&mut self, seat: usize) -> Option<P>
        ensures pass { result ≡ get_or self.old seat None }
        ensures taken { self.new ≡ slice_set self.old seat None }
    {
        if seat >= self.places.len() {
            return None;
        }
        self.places[seat].take()
    }

    /// Puts the pass of a seat back.
    pub(crate) fn put(&mut self, seat: usize, pass: P)
        requires { seat < length self.old }
        ensures { self.new ≡ slice_set self.old seat (Some pass) }
    {
        self.places[seat] = Some(pass);
    }
}
