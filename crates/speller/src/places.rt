// A word at a place of a buffer, for what does not hold a pen yet.
ghost use Rattle.std.specs.Prelude.{◌+◌, ◌≤◌, length};
ghost use Rattle.lists.specs.inner.Stores.{Put};

use pens::Pen;

// A word; the place behind it.
#[tactic(auto, unfolding(pens::specs::Pens::place, pens::specs::Pens::capacity, pens::specs::Pens::wrote))]
pub fn put_word(buf: &mut [u8], at: usize, word: &[u8]) -> usize
    requires { at + length word.now ≤ length buf.old }
    ensures { Put buf.old at word.now buf.new result }
{
    let mut pen = Pen { buf, at };
    pen.put(word);
    pen.at
}
