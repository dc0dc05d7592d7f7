// The bytes of an image in the other byte order.
ghost use Rattle.std.specs.Prelude.{◌≡◌, ℕ, List};
ghost use Rattle.layouts.specs.Pages.{bytes_of};
ghost use Rattle.images.specs.Turns.{turned, foreign_of};

// Turns the four bytes of every word round, as a station of the other byte order would have written them. Bytes after the last whole word
// stay.
pub fn turn_round(bytes: &mut [u8])
    ensures after { bytes.new ≡ turned bytes.old }
    ensures words { (ws : List ℕ) → bytes.old ≡ bytes_of ws → bytes.new ≡ foreign_of ws }
    ensures twice { turned bytes.new ≡ bytes.old }
{
    // By their places: what is written through `chunks_exact_mut` is not known after the loop.
    for i in 0..bytes.len() / 4 {
        bytes[4 * i..4 * i + 4].reverse();
    }
}
