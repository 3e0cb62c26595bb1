// Parts of texts, each ended by one byte.
ghost use Rattle.std.specs.Prelude.{◌≡◌, ◌==◌, ◌≤◌, length, position};
ghost use Rattle.outcomes.specs.Texts.{text_part};
ghost use Rattle.outcomes.specs.inner.Places.{EndsAt, GoesOnAt, StartsAt};

// The part of a number of a text, from 0, each part ended by the byte e.
pub fn part_of(text: &[u8], n: u32, e: u8) -> &[u8]
    ensures { result.now ≡ text_part e n text.now }
{
    let from = part_from(text, n, e);
    let end = end_of(text, from, e);
    &text[from..end]
}

// The place of the first byte e, if there is one.
fn first_of(text: &[u8], e: u8) -> Option<usize>
    ensures { result ≡ position (λ b. b == e) text.now }
{
    text.iter().position(|b| *b == e)
}

// The place of the first byte e from a place on, or the end of the text.
pub fn end_of(text: &[u8], from: usize, e: u8) -> usize
    requires { from ≤ length text.now }
    ensures { EndsAt e text.now from result }
{
    match first_of(&text[from..], e) {
        Some(n) => from + n,
        None => text.len(),
    }
}

// The place behind the first byte e from a place on, or the end of the text.
pub fn next_part(text: &[u8], from: usize, e: u8) -> usize
    requires { from ≤ length text.now }
    ensures { GoesOnAt e text.now from result }
{
    let end = end_of(text, from, e);
    if end < text.len() {
        return end + 1;
    }
    end
}

// Where the part of a number starts, from 0.
pub fn part_from(text: &[u8], n: u32, e: u8) -> usize
    ensures { StartsAt e n text.now result }
{
    let mut from: usize = 0;
    for _ in 0..n {
        from = next_part(text, from, e);
    }
    from
}
