// A pen: a lent buffer, and the place in it where the next byte goes. What puts bytes takes the pen and moves it behind them, so no place is handed from call to call.
#![tactic(auto, unfolding(crate::specs::Pens::place, crate::specs::Pens::capacity, crate::specs::Pens::wrote))]

ghost use Rattle.std.specs.Prelude.{◌≡◌, [], ◌∷◌};
ghost use Rattle.pens.specs.Pens.{RoomFor, wrote};

// A pen over a lent buffer.
#[derive(Drop)]
pub struct Pen<'a> {
    pub buf: &'a mut [u8],
    pub at: usize,
}

impl<'a> Pen<'a> {
    // Puts a word.
    pub fn put(&mut self, word: &[u8])
        requires { RoomFor self.old word.now }
        ensures { self.new ≡ wrote self.old word.now }
    {
        let start = self.at;
        let end = start + word.len();
        self.buf[start..end].copy_from_slice(word);
        self.at = end;
    }

    // Puts a byte.
    pub fn put_byte(&mut self, byte: u8)
        requires { RoomFor self.old (byte ∷ []) }
        ensures { self.new ≡ wrote self.old (byte ∷ []) }
    {
        let at = self.at;
        self.buf[at] = byte;
        self.at = at + 1;
    }
}
