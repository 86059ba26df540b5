use std::marker::Model;

/// How many values a group has room for.
pub const ROOM: usize = 4;

/// A few values in order, the oldest first. They go into a queue together, as one item of it: one
/// alone costs as much as several. Contracts see them as a list.
#[derive(Drop)]
pub struct Group<T> {
    values: [T; ROOM],
    len: usize,
}

impl<T> Model for Group<T> {
    ghost use Rattle.std.specs.Prelude.{◌≡◌, ◌≤◌, List, length, take};

    ghost Value = { List T };

    ghost view = { λ group. take group.len group.values };

    ghost invariant = { λ group. (group.len ≤ 4) × (length group.values ≡ 4) };
}

impl<T: Copy> Group<T> {
    ghost use Rattle.std.specs.Prelude.{◌≡◌, ◌+◌, ◌<◌, ◌≤◌, [], ◌∷◌, ◌++◌, length, drop, IfSome, IfNone};

    /// No values. `blank` fills the room.
    pub fn new(blank: T) -> Group<T>
        ensures none { result ≡ [] }
    {
        Group {
            values: [blank; ROOM],
            len: 0,
        }
    }

    /// How many values there are.
    pub fn len(&self) -> usize
        ensures len { result ≡ length self.now }
        ensures room { result ≤ 4 }
    {
        self.len
    }

    /// The value in a place, counted from 0.
    pub fn get(&self, place: usize) -> Option<T>
        ensures value { IfSome result (λ value.
            drop place self.now ≡ value ∷ drop (place + 1) self.now) }
        ensures within { IfSome result (λ _. place < 4) }
        ensures behind { IfNone result (length self.now ≤ place) }
    {
        if place >= self.len {
            return None;
        }
        Some(self.values[place])
    }

    /// Puts a value behind the others.
    pub fn push(&mut self, value: T)
        requires room { length self.old < 4 }
        ensures pushed { self.new ≡ self.old ++ value ∷ [] }
    {
        self.values[self.len] = value;
        self.len += 1;
    }

    /// Hands the values over, and has none left.
    pub fn take(&mut self) -> Group<T>
        ensures group { result ≡ self.old }
        ensures none { self.new ≡ [] }
    {
        let group = Group {
            values: self.values,
            len: self.len,
        };
        self.len = 0;
        group
    }
}
