// What a byte of a line is.
ghost use Rattle.std.specs.Prelude.{◌≡◌};
ghost use Rattle.lines.specs.Lines.{is_blank, is_digit};

// One test passes the bytes of most words.
#[tactic(auto, unfolding(crate::specs::Lines::is_blank))]
pub fn is_blank(b: u8) -> bool
    ensures { result ≡ is_blank b }
{
    b <= b' ' && matches!(b, b' ' | b'\t' | b'\r' | b'\x0c')
}

#[tactic(auto, unfolding(crate::specs::Lines::is_digit))]
pub fn is_digit(b: u8) -> bool
    ensures { result ≡ is_digit b }
{
    b.is_ascii_digit()
}
