// The good lines of a text, one after another.
ghost use Rattle.std.specs.Prelude.{◌≡◌, length};
ghost use Rattle.std.specs.Iterator.{at_most};
ghost use Rattle.listing.specs.Following.{NextAccess};

use crate::lines::front_line;
use crate::{Accesses, Front};
use port_spec::Access;

impl<'a> Iterator for Accesses<'a> {
    type Item = Access;

    ghost next_gives = { λ s r t. NextAccess s.left.now r t.left.now };

    ghost remaining = { λ s. at_most (length s.left.now) };

    #[inline(always)]
    fn next(&mut self) -> Option<Access> {
        let Front::Good(access, size) = front_line(self.left) else {
            return None;
        };
        self.left = &self.left[size..];
        Some(access)
    }
}

// The good lines that a text begins with.
pub fn good_lines(text: &[u8]) -> Accesses<'_>
    ensures { result.left.now ≡ text.now }
{
    Accesses { left: text }
}
