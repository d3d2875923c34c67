// A problem that the planner takes, with what its inner loops ask of it. A clause sees it as the words of the problem.
ghost use Rattle.std.specs.Prelude.{◌≡◌, ◌<◌, ◌≤◌};
ghost use Rattle.rules.specs.Problem.{rows, messages};
ghost use Rattle.rules.specs.Parts.{Repeat};
ghost use Rattle.places.specs.Places.{Few};

use super::MOST_PLANNED;
use rules::words;
use std::marker::Model;

// The words of the problem, and how often each of its messages is sent: every so many rows.
#[derive(Drop)]
pub struct Plannable<'a> {
    words: &'a [u32],
    steps: [usize; MOST_PLANNED],
}

impl<'a> Model for Plannable<'a> {
    ghost use Rattle.std.specs.Prelude.{List, ℕ};
    ghost use Rattle.places.specs.Places.{Few, Steps};

    ghost Value = { List ℕ };

    ghost view = { λ s. s.words.now };

    ghost invariant = { λ s. Few s.words.now × Steps s.words.now s.steps };
}

impl<'a> Plannable<'a> {
    // The problem of these words.
    pub fn of(words: &'a [u32]) -> Plannable<'a>
        requires { Few words.now }
        ensures { result ≡ words.now }
    {
        let mut steps = [1usize; MOST_PLANNED];
        for j in 0..words::messages_of(words) {
            steps[j] = words::repeat_of(words, j);
        }
        Plannable { words, steps }
    }

    // Its words.
    pub fn words(&self) -> &[u32]
        ensures { result.now ≡ self.now }
    {
        self.words
    }

    // How many messages it has, which are few.
    pub fn messages(&self) -> usize
        ensures is { result ≡ messages self.now }
        ensures few { Few self.now }
    {
        words::messages_of(self.words)
    }

    // How many rows its matrix has.
    pub fn rows(&self) -> usize
        ensures is { (result ≡ rows self.now) × (1 ≤ result) × (result ≤ 64) }
        ensures few { Few self.now }
    {
        words::rows_of(self.words)
    }

    // How often message j is sent: every so many rows.
    pub fn step(&self, j: usize) -> usize
        requires { j < messages self.now }
        ensures often { Repeat self.now j result }
        ensures few { Few self.now }
    {
        let steps = &self.steps;
        steps[j]
    }
}
