// Some messages of a problem, no more than are planned at most. A clause sees the list of their numbers.
ghost use Rattle.std.specs.Prelude.{◌≡◌, ◌<◌, ◌≤◌, [], ◌∷◌, ◌++◌, length};
ghost use Rattle.places.specs.Places.{most_planned};

use places::MOST_PLANNED;
use std::marker::Model;

// Their numbers, at the front of as many as are planned: the list is fixed, since the library has no heap.
#[derive(Drop)]
pub struct Group {
    numbers: [usize; MOST_PLANNED],
    count: usize,
}

impl Model for Group {
    ghost use Rattle.std.specs.Prelude.{ℕ, List, ◌≤◌, take};
    ghost use Rattle.places.specs.Places.{most_planned};

    ghost Value = { List ℕ };

    ghost view = { λ g. take g.count g.numbers };

    ghost invariant = { λ g. g.count ≤ most_planned };
}

impl Group {
    // No messages.
    pub fn none() -> Group
        ensures { result ≡ [] }
    {
        Group {
            numbers: [0; MOST_PLANNED],
            count: 0,
        }
    }

    // Their numbers, in the order in which they were added.
    pub fn numbers(&self) -> &[usize]
        ensures numbers { result.now ≡ self.now }
        ensures few { length self.now ≤ most_planned }
    {
        &self.numbers[..self.count]
    }

    // Adds a message behind the others.
    pub fn add(&mut self, j: usize)
        requires { length self.old < most_planned }
        ensures { self.new ≡ self.old ++ j ∷ [] }
    {
        self.numbers[self.count] = j;
        self.count += 1;
    }
}
