// Cutting bytes in two.
ghost use Rattle.std.specs.Option.{MatchOption};
ghost use Rattle.taskfile.specs.Cuts.{Cut, Lacks};

// What stands before and after the first byte `b`.
pub fn cut(src: &[u8], b: u8) -> Option<(&[u8], &[u8])>
    ensures { MatchOption result (Lacks b src.now) (λ p. Cut b src.now p.0.now p.1.now) }
{
    let i = src.iter().position(|x| *x == b)?;
    Some((&src[..i], &src[i + 1..]))
}
