// A text cut at a character.
ghost use Rattle.std.specs.Prelude.{◌≡◌, ◌<◌};
ghost use Rattle.rule.specs.Parts.{cut_at, bytes_of};

// What stands before the first such character, and what stands behind it.
pub(crate) fn cut(text: &str, c: char) -> Option<(&str, &str)>
    requires { c < 128 }
    ensures { bytes_of result ≡ cut_at c text.now }
{
    text.split_once(c)
}
