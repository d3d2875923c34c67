// The digits of a word that are set, one after another.
ghost use Rattle.std.specs.Prelude.{◌≡◌};
ghost use Rattle.std.specs.Iterator.{at_most};
ghost use Rattle.basics.specs.Bits.{NextDigit};

use super::{drop_lowest, lowest};

// The digits that are left, the lowest first, as the word that has them.
#[derive(Drop)]
pub struct Digits {
    pub left: u32,
}

// The digits of x.
pub fn digits_of(x: u32) -> Digits
    ensures { result.left ≡ x }
{
    Digits { left: x }
}

impl Iterator for Digits {
    type Item = u32;

    ghost next_gives = { λ s k t. NextDigit s.left k t.left };

    ghost remaining = { λ s. at_most s.left };

    fn next(&mut self) -> Option<u32> {
        let x = self.left;
        if x == 0 {
            return None;
        }
        self.left = drop_lowest(x);
        Some(lowest(x))
    }
}
